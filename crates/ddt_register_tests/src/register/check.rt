//! What the definitions give of the worked registers, by computation; and in `slow` the rules by plain bodies, which
//! `tests/crates` compares with the check, and `fuzz/slow_bodies` over random registers.

ghost use Rattle.ddt_check.specs.Worked.{CampusAssigns, CampusSays, OthersAssign, NestedSitesAssign, BreaksInNine};

pub mod slow;

fn campus_assigns()
    ensures { CampusAssigns }
{}

fn campus_says()
    ensures { CampusSays }
{}

fn others_assign()
    ensures { OthersAssign }
{}

fn nested_sites_assign()
    ensures { NestedSitesAssign }
{}

fn a_ninth_row_breaks_its_rule()
    ensures { BreaksInNine }
{}

#[test]
fn definitions_give_the_worked_values() {
    campus_assigns();
    campus_says();
    others_assign();
    nested_sites_assign();
    a_ninth_row_breaks_its_rule();
}
