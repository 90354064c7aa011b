//! A target whose files are values.
use in_memory::{File, collate_run};
use std::test::Fail;

const TARGET: &[u8] = br#"{"version":1,"target":"app","module-dir":"mod","module-ext":".pcm",
    "scans":["a.ddi"],"dyndep":"app.dd","info":"app.info"}"#;

const SCAN: &[u8] = br#"{"version":1,"rules":[
    {"primary-output":"a.o","provides":[{"logical-name":"A"}]}]}"#;

#[test]
fn a_target_of_one_file(rt: HostRuntime) -> Result<(), Fail> {
    let files = [File {
        name: "a.ddi",
        bytes: SCAN,
    }];
    let answer = collate_run(rt.alloc(), TARGET, &files)?;
    assert!(rt; answer.status == 0 && answer.files.len() == 2);
    assert!(rt; answer.files[1].name.as_str() == "app.dd");
    Ok(())
}
