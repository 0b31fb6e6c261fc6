// Laws of pages.

ghost use Rattle.pk_html.specs.Laws.{MarksAreTags, ReadBack};

/// A page's `<`, `>`, `"` and `'` are those of its tags, whatever its texts are; and a text that is read back is itself.
pub fn pages_hold_no_marks_of_texts()
    ensures marks { MarksAreTags }
    ensures back { ReadBack }
{}
