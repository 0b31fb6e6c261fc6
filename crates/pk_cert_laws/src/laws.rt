// Laws of certificates, over their definitions.

ghost use Rattle.pk_cert_laws.specs.Checks.{ReadCellsHoldStates, ReadCellsAreChecked, ResultsCheckWell};
ghost use Rattle.pk_cert_laws.specs.Runs.{CheckedCellsHoldRuns};

use pk_cert_check::every_check_ends;
use pk_sound::{
    families_bound, families_hold_runs, families_judge, families_tell_faults, results_are_families,
};
use pk_transfer::graphs_law;

/// The cells that are read of a certificate are such as a check asks for.
pub fn read_cells_hold_states()
    ensures { ReadCellsHoldStates }
{}

/// They solve the equations of the graph's points, or there is a first point at which they don't.
pub fn read_cells_are_checked()
    ensures { ReadCellsAreChecked }
{
    graphs_law();
    every_check_ends();
}

/// What an analysis of a graph with one octagon leaves at its points are facts whose certificate checks well.
pub fn results_check_well()
    ensures { ResultsCheckWell }
{
    results_are_families();
}

/// No run of a graph leaves cells that check well, and verdicts by them are right, whoever made them.
pub fn checked_cells_hold_runs()
    ensures { CheckedCellsHoldRuns }
{
    graphs_law();
    families_hold_runs();
    families_judge();
    families_bound();
    families_tell_faults();
}
