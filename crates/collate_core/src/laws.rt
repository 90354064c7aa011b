//! Laws of targets, projects and their builds: each is the contract of a call that does nothing.
ghost use Rattle.collate_core.specs.BuildLaws.{TargetHasNoRace, ProjectHasNoRace, ProjectMakesAll};
ghost use Rattle.collate_core.specs.BuildLaws.{LeastOrderRuns, TargetHasNoFalseWait};
ghost use Rattle.collate_core.specs.BuildLaws.{ProjectHasNoFalseWait, TargetHasNoFalseRebuild};
ghost use Rattle.collate_core.specs.BuildLaws.{ProjectHasNoFalseRebuild, TargetHasNoFalseCycle};
ghost use Rattle.collate_core.specs.BuildLaws.{ProjectHasNoFalseCycle};
ghost use Rattle.collate_core.specs.Laws.{CollatedIsNotRefused, HeadlineHolds, ProjectIsNotRefused};
ghost use Rattle.collate_core.specs.Laws.{OneProjectRefusal, ProjectEndOrderable, ProjectNumbered};
ghost use Rattle.collate_core.specs.Laws.{OneRefusal, ProjectMaps, ProjectNeeds, ProjectOrders};

/// Whatever a target collates to has the headline.
pub fn headline()
    ensures { HeadlineHolds }
{
    build_effect::laws::statements_have_one_effect();
    module_table::laws::added_files_can_be_ordered();
}

/// The dyndep files of a project may be applied in any order. All objects can be numbered so that
/// the producer of each required file has a smaller number than its user. The graph after all files
/// can be ordered.
pub fn files_of_a_project_apply_in_any_order()
    ensures orders { ProjectOrders }
    ensures numbered { ProjectNumbered }
    ensures orderable { ProjectEndOrderable }
{
    build_effect::laws::dyndep_files_apply_in_any_order();
    build_effect::laws::the_graph_after_files_can_be_ordered();
    module_table::laws::added_files_can_be_ordered();
    scan_docs::laws::bytes_determine_the_value();
}

/// In a project in which no two targets add the same file, an object needs in the table of its
/// target what it needs in the project, and every style reads this back from the object's map.
pub fn maps_have_what_a_project_needs()
    ensures needs { ProjectNeeds }
    ensures maps { ProjectMaps }
{
    module_table::laws::added_files_can_be_ordered();
    scan_docs::laws::bytes_determine_the_value();
}

/// A target that collates has no rejection, and every target has at most one. The same holds of a
/// project. So unless an allocation fails, `collate` and `project` succeed if and only if there is
/// no rejection, and otherwise they report the only one.
pub fn a_target_has_one_outcome()
    ensures collate { CollatedIsNotRefused }
    ensures one { OneRefusal }
    ensures project { ProjectIsNotRefused }
    ensures one_of_project { OneProjectRefusal }
{
    scan_docs::laws::bytes_have_one_result();
    module_table::laws::one_fault_is_reported();
}

/// No race: take any order of the edges after the effect in which each edge comes after the edges
/// that make its inputs. Then the edge of an object comes after the edges that make the files of
/// the modules that the object requires, and the edge of an object makes the files of the modules
/// that the object provides. This holds after the dyndep file of a target that has the headline,
/// and after the files of any targets of a project, under the premises of the headline and of
/// [`files_of_a_project_apply_in_any_order`]. After the files of targets and of those that they
/// link, an edge makes each file that an object of these targets requires.
/// `build_effect::edge_order` returns such an order.
pub fn no_race()
    ensures target { TargetHasNoRace }
    ensures project { ProjectHasNoRace }
    ensures all_made { ProjectMakesAll }
    ensures order { LeastOrderRuns }
{
    module_table::laws::added_files_can_be_ordered();
    crate::laws::files_of_a_project_apply_in_any_order();
}

/// No false wait, under the same premises: after the effect an edge needs what it needed before.
/// The edge of an object also needs the edges that make the files of the modules that the object
/// requires. An edge that read a file which is now an added output needs the edge that makes the
/// file. No edge needs anything else.
pub fn no_false_wait()
    ensures target { TargetHasNoFalseWait }
    ensures project { ProjectHasNoFalseWait }
{
    module_table::laws::added_files_can_be_ordered();
    crate::laws::files_of_a_project_apply_in_any_order();
}

/// No false rebuild, under the same premises. After the effect a chain of needs leads from one edge
/// to another if and only if a chain of earlier needs and of imports does. The same holds without
/// order-only inputs, which do not count when Ninja decides what to run again. So after a change
/// Ninja runs what it ran before, and what imports it, directly or through others. An edge imports
/// from another edge if its object requires a module whose BMI the other produces, or if it lists
/// such a file as an input of its own, and the object of the other provides the module.
pub fn no_false_rebuild()
    ensures target { TargetHasNoFalseRebuild }
    ensures project { ProjectHasNoFalseRebuild }
{
    module_table::laws::added_files_can_be_ordered();
    crate::laws::files_of_a_project_apply_in_any_order();
}

/// No false cycle, under the same premises. If the edges cannot be ordered after the effect, every
/// step of a cycle, and so of the least one, was a need before or is an import. So if earlier needs
/// and imports have no cycle, the edges can be ordered.
pub fn no_false_cycle()
    ensures target { TargetHasNoFalseCycle }
    ensures project { ProjectHasNoFalseCycle }
{
    module_table::laws::added_files_can_be_ordered();
    crate::laws::files_of_a_project_apply_in_any_order();
}
