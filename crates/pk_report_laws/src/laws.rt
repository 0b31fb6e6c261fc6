// Laws of reports.

ghost use Rattle.pk_report_laws.specs.Runs.True.{AnswersAreTrue, CheckedCellsAreTrue, ReportsAreTrue};
ghost use Rattle.pk_report_laws.specs.Programs.TrueOfPrograms.{ChecksAreTrueOfPrograms, ReportsAreTrueOfPrograms, TrueStatesAreTrueOfPrograms};
ghost use Rattle.pk_report_laws.specs.Programs.Faultless.{ChecksAreFaultless, ProgramsAreFaultless, TrueStatesAreFaultless};

use pk_access_texts::accesses_are_apart;
use pk_cert_laws::{checked_cells_hold_runs, read_cells_hold_states};
use pk_computed_texts::texts_computed_is_evaluated;
use pk_folded_texts::texts_computed_accesses_are_evaluated;
use pk_front::{accepted_are_programs, program_is_determined};
use pk_loop_heads_texts::turns_of_texts_are_heads;
use pk_loop_texts::turns_of_texts_are_apart;
use pk_sound::{bounds_hold, faults_are_unknown, result_holds_runs, verdicts_hold};
use pk_text_graph::graphs_are_well_made;
use pk_type_laws::units_are_marked;
use pk_visits_laws::{
    graphs_have_program_visits, points_share_accesses, programs_are_never_stuck, turns_are_followed,
};
use pk_welltyped_texts::texts_are_well_typed;

/// The states that a report tells of a graph hold each of its runs, and the verdicts are right.
pub fn reports_are_true()
    ensures { ReportsAreTrue }
{
    result_holds_runs();
    verdicts_hold();
    bounds_hold();
    faults_are_unknown();
}

/// So do those of the report on a text.
pub fn answers_are_true()
    ensures { AnswersAreTrue }
{
    reports_are_true();
    graphs_are_well_made();
}

/// So do cells that are checked, whoever made them.
pub fn checked_cells_are_true()
    ensures { CheckedCellsAreTrue }
{
    checked_cells_hold_runs();
}

/// States that hold each run of a text's graph hold each visit of each run of the program, and each fault is at an access whose verdict by them is unknown. No two accesses are of one path, place and kind,
/// what is told unreachable no run computes, and what is told of where a loop begins again is true of each of its turns, and is a head's where nothing jumps into the loop and one turn can follow another.
pub fn true_states_are_true_of_programs()
    ensures { TrueStatesAreTrueOfPrograms }
{
    texts_are_well_typed();
    units_are_marked();
    graphs_are_well_made();
    graphs_have_program_visits();
    programs_are_never_stuck();
    points_share_accesses();
    accesses_are_apart();
    texts_computed_is_evaluated();
    texts_computed_accesses_are_evaluated();
    turns_are_followed();
    turns_of_texts_are_apart();
    turns_of_texts_are_heads();
}

/// So do those of a report.
pub fn reports_are_true_of_programs()
    ensures { ReportsAreTrueOfPrograms }
{
    true_states_are_true_of_programs();
    reports_are_true();
    graphs_are_well_made();
}

/// And those of a check that ends well, whoever wrote the bytes.
pub fn checks_are_true_of_programs()
    ensures { ChecksAreTrueOfPrograms }
{
    true_states_are_true_of_programs();
    checked_cells_are_true();
    read_cells_hold_states();
    graphs_are_well_made();
}

/// Where no verdict by such states is unknown, no run of the program fails.
pub fn true_states_are_faultless()
    ensures { TrueStatesAreFaultless }
{
    true_states_are_true_of_programs();
    accepted_are_programs();
    program_is_determined();
}

/// So where the report on a text's graph has no unknown verdict.
pub fn programs_are_faultless()
    ensures { ProgramsAreFaultless }
{
    true_states_are_faultless();
    reports_are_true();
    graphs_are_well_made();
}

/// And where a check tells none.
pub fn checks_are_faultless()
    ensures { ChecksAreFaultless }
{
    true_states_are_faultless();
    checked_cells_are_true();
    read_cells_hold_states();
    graphs_are_well_made();
}
