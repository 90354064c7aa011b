//! Laws of effects and of edge listings. Each law is the contract of a function that does nothing.
ghost use Rattle.build_effect.specs.Prelude.{ChecksSuffice, FaultsExclude, AnyOrder, CauseIsFaulty};
ghost use Rattle.build_effect.specs.Prelude.{EffectGives, LineOrCause, ClassHasForm, LevelOrders};
ghost use Rattle.build_effect.specs.Prelude.{OrdersEndAlike, WrittenListing, ListingOrFault};
ghost use Rattle.build_effect.specs.Prelude.{ListingFaultStays, ListedIsFaultless, OneListingFault};
ghost use Rattle.build_effect.specs.Prelude.{OneListing, OneClass, OneCause, FilesOrder, OneEffect};

/// Statements that add no file twice have exactly one effect on every graph in which no file is
/// made twice, exactly the edges of the statements' outputs name the dyndep file, and no edge makes
/// an added output. The effect is that of the statements with canonical paths, which are one list.
pub fn statements_have_one_effect()
    ensures one { OneEffect }
    ensures gives { EffectGives }
{}

/// Dyndep files may be applied in any order if each meets the premises of
/// [`statements_have_one_effect`], their names differ, and no two of them add one file. Each edge
/// then gains exactly what its own file adds, and all orders end in one graph.
pub fn dyndep_files_apply_in_any_order()
    ensures any_order { AnyOrder }
    ensures end_alike { OrdersEndAlike }
{}

/// Statements without a fault have exactly one effect, and statements with one have none.
pub fn statements_have_an_effect_or_a_fault()
    ensures suffice { ChecksSuffice }
    ensures exclude { FaultsExclude }
{}

/// The graph after the effect of a file can be ordered if the premises of
/// [`statements_have_one_effect`] hold, what the statements add can be ordered, and the graph with
/// the added outputs alone can be ordered by levels. The edges that name the file are on one level,
/// and each edge that makes an added input is on a lower level, unless the input is an added
/// output.
pub fn the_graph_after_a_file_can_be_ordered()
    ensures { LevelOrders }
{}

/// The graph after the effects of several files can be ordered under the same premises. The edges
/// of each file are on one level, and the level of a later file is not lower.
pub fn the_graph_after_files_can_be_ordered()
    ensures { FilesOrder }
{}

/// A text lists at most one list of edges, and a text that lists edges has no fault.
pub fn a_text_lists_one_list_of_edges()
    ensures one { OneListing }
    ensures faultless { ListedIsFaultless }
{}

/// A text lists edges or has a fault. By [`a_text_lists_one_list_of_edges`] it does not have both.
pub fn a_text_lists_edges_or_has_a_fault()
    ensures { ListingOrFault }
{}

/// A text has at most one fault: the first faulty line, its number and its cause. So the fault that
/// a reader reports is the only one of the text.
pub fn a_text_has_one_listing_fault()
    ensures { OneListingFault }
{}

/// A fault that [`ListingReader::feed`](crate::ListingReader::feed) reports is the fault of every
/// text that begins with the bytes fed so far.
pub fn listing_fault_stays()
    ensures { ListingFaultStays }
{}

/// A line has at most one class, and at most one cause for which it is rejected. After lines with
/// which some listing begins, a line either has a class with which a listing continues or has a
/// cause, and not both. A line whose cause is not `Form` has no class.
pub fn a_line_has_a_class_or_a_cause()
    ensures class { OneClass }
    ensures decided { LineOrCause }
    ensures faulty { CauseIsFaulty }
    ensures cause { OneCause }
    ensures form { ClassHasForm }
{}

/// The text of a graph lists the edges of the graph, and by [`a_text_lists_one_list_of_edges`] no
/// other edges, if each rule has at least one letter, digit, `_`, `.` or `-` and nothing else, the
/// paths are canonical, as those of an [`Edge`](crate::Edge) are, and no build line is too long.
pub fn a_written_text_lists_its_edges()
    ensures { WrittenListing }
{}
