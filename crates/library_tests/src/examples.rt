//! A caller's example for each library, as short as it can be. The library's README quotes it word
//! for word, from the first `use` on; `tests/reading.py` compares the two.

mod build_effect_example;
mod collate_core_example;
mod dep_order_example;
mod document_values_example;
mod dyndep_file_example;
mod in_memory_example;
mod module_maps_example;
mod module_table_example;
mod ninja_text_example;
mod scan_docs_example;
