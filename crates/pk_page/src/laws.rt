// Laws of pages.

ghost use Rattle.pk_page.specs.Laws.{FindingsStand};

/// Each operation that is unknown stands on the page, with its place and its ways.
pub fn findings_stand()
    ensures { FindingsStand }
{}
