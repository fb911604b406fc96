//! Laws of publication, over the definitions alone: each is the contract of a function that does nothing.

ghost use Rattle.ddt_deploy.specs.Folders.Laws.{OrderDoesNotMatter, PlansPublish};

/// Two configurations of one name that are alike, whatever the order of what they hold, are one in the order of
/// prefixes; and so their files are.
pub fn the_order_of_rows_does_not_matter()
    ensures { OrderDoesNotMatter }
{}

/// Where the plan of a folder was carried out, the folder has the register, the configuration of each group that isn't
/// foreign, and a manifest in which each line is that of a file which is there, or the one that an altered file had.
/// The files of groups that are gone or foreign are removed if that was asked for and their SHA-256 is the one that the
/// last manifest lists. They stay as they were otherwise, and so does each other file.
pub fn a_plan_that_is_carried_out_publishes()
    ensures { PlansPublish }
{}
