// Laws of reports on texts.

ghost use Rattle.pk_read_back_texts.specs.Laws.{TextsAreTellable, RunsAreReadBack};

use pk_calls::paths_are_all;
use pk_read_back_laws::reports_are_read_back;
use pk_text_laws::names_stand_in_texts;
use pk_unit_texts::places_are_bounded;
use pk_welltyped_texts::texts_are_well_typed;

/// The typed unit of a text of at most 4 MiB has identifiers for names and small places, and its call paths are its listing.
pub fn texts_are_tellable()
    ensures { TextsAreTellable }
{
    names_stand_in_texts();
    places_are_bounded();
    texts_are_well_typed();
    paths_are_all();
}

/// Every report that `run` writes of such a text is read, and gives back exactly what it tells.
pub fn runs_are_read_back()
    ensures { RunsAreReadBack }
{
    texts_are_tellable();
    reports_are_read_back();
}
