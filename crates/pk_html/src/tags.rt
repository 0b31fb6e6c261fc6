// The tags of a page, each with the words of the page that stand beside it.

ghost use Rattle.std.specs.Prelude.{◌≡◌};
ghost use Rattle.pk_html.specs.Tags.{tag_text};

/// A tag.
#[derive(Clone, Copy)]
pub enum Tag {
    PageOpen,
    Viewport,
    LightColours,
    DarkColours,
    BodyStyle,
    InkStyle,
    HeadingStyle,
    CodeStyle,
    TableStyle,
    LineStyle,
    SafeStyle,
    UnknownStyle,
    UnreachableStyle,
    PrintStyle,
    BodyOpen,
    SafeLegend,
    UnknownLegend,
    FilesOpen,
    FileLink,
    FileCount,
    FileEnd,
    FilesEnd,
    PageEnd,
    Quoted,
    SectionOpen,
    SectionCounts,
    Safe,
    Unknown,
    Unreachable,
    SectionEnd,
    RefusedOpen,
    RefusedSaid,
    RefusedEnd,
    FindingsOpen,
    FindingOpen,
    FindingSaid,
    FindingEnd,
    FindingsEnd,
    WaysOpen,
    WayOpen,
    WayRange,
    WayEnd,
    CodeEnd,
    CallOpen,
    CallAt,
    LinkOpen,
    LinkLine,
    LinkEnd,
    Colon,
    TableOpen,
    TableColumns,
    TableRow,
    TableFirst,
    TableNext,
    TableRowEnd,
    TableEnd,
    LoopsOpen,
    LoopOpen,
    PointOpen,
    LoopIn,
    HeadingEnd,
    FactOpen,
    ArrayMark,
    ElementOpen,
    ElementEnd,
    In,
    Comma,
    InEnd,
    Class,
    Times,
    Minus,
    Difference,
    Sum,
    AtMost,
    FactEnd,
    NoRun,
    SourceOpen,
    OriginOpen,
    OriginEnd,
    LineOpen,
    LineNumber,
    LineText,
    LineEnd,
    SafeOpen,
    SafeEnd,
    UnknownOpen,
    UnknownEnd,
    UnreachableOpen,
    UnreachableEnd,
}

/// The text of a tag.
#[tactic(auto, unfolding(crate::specs::Tags::tag_text))]
pub(crate) fn text_of(tag: Tag) -> &'static str
    ensures { result.now ≡ tag_text tag }
{
    match tag {
        Tag::PageOpen => {
            "<!DOCTYPE html>\n<html lang=\"en\">\n<head>\n<meta charset=\"utf-8\">\n<title>What may fault</title>\n"
        }
        Tag::Viewport => {
            "<meta name=\"viewport\" content=\"width=device-width, initial-scale=1\">\n<style>\n"
        }
        Tag::LightColours => {
            ":root{color-scheme:light dark;--ink:#1a1a1a;--paper:#fff;--soft:#595959;--warn:#ffd33d}\n"
        }
        Tag::DarkColours => {
            "@media(prefers-color-scheme:dark){:root{--ink:#e8e8e8;--paper:#15171b;--soft:#a3a3a3;--warn:#8a5200}}\n"
        }
        Tag::BodyStyle => {
            "body{font:1rem/1.5 sans-serif;margin:0 auto;max-width:72rem;padding:1rem}\n"
        }
        Tag::InkStyle => {
            "body{color:var(--ink);background:var(--paper)}a{color:inherit}a:focus{outline:.2rem solid}\n"
        }
        Tag::HeadingStyle => {
            "h1,h2,h3,h4{line-height:1.25;margin:1.5rem 0 .5rem}h2{border-top:1px solid;padding-top:1rem}\n"
        }
        Tag::CodeStyle => "code{font:.9rem/1.4 monospace;white-space:pre-wrap}\n",
        Tag::TableStyle => {
            "table{border-collapse:collapse}th,td{padding:.1rem .8rem;border:1px solid;text-align:right}\n"
        }
        Tag::LineStyle => {
            ".line{margin:0;display:flex}.line:target{outline:1px solid}.line span{min-width:4rem;color:var(--soft)}\n"
        }
        Tag::SafeStyle => {
            "u{text-decoration:underline dotted}ol:empty::after{content:\"None.\"}th[scope=row]{text-align:left}\n"
        }
        Tag::UnknownStyle => {
            "mark{color:inherit;background:var(--warn);font-weight:bold;outline:2px solid}\n"
        }
        Tag::UnreachableStyle => "s{text-decoration:line-through;opacity:.7}\n",
        Tag::PrintStyle => {
            "@media print{body{max-width:none;font-size:.8rem}a{text-decoration:none}.line{break-inside:avoid}}\n"
        }
        Tag::BodyOpen => "</style>\n</head>\n<body>\n<header>\n<h1>What may fault</h1>\n",
        Tag::SafeLegend => {
            "<p>In the source, an operation that can fault is <u>underlined by dots</u> where it faults in no run,\n"
        }
        Tag::UnknownLegend => {
            "<mark>framed</mark> where it may fault, and <s>struck out</s> where no run comes to it.</p>\n</header>\n"
        }
        Tag::FilesOpen => "<nav aria-label=\"Files\">\n<ul>\n",
        Tag::FileLink => "<li><a href=\"#f",
        Tag::FileCount => "</a>: ",
        Tag::FileEnd => " unknown</li>\n",
        Tag::FilesEnd => "</ul>\n</nav>\n<main>\n",
        Tag::PageEnd => "</main>\n</body>\n</html>\n",
        Tag::Quoted => "\">",
        Tag::SectionOpen => "<section>\n<h2 id=\"f",
        Tag::SectionCounts => "</h2>\n<p>",
        Tag::Safe => " safe, ",
        Tag::Unknown => " unknown, ",
        Tag::Unreachable => " unreachable</p>\n",
        Tag::SectionEnd => "</section>\n",
        Tag::RefusedOpen => "<section>\n<h2>",
        Tag::RefusedSaid => "</h2>\n<p><strong>Refused</strong>: ",
        Tag::RefusedEnd => "</p>\n</section>\n",
        Tag::FindingsOpen => "<h3>Findings</h3>\n<ol>",
        Tag::FindingOpen => "\n<li>",
        Tag::FindingSaid => ": ",
        Tag::FindingEnd => "</ul>\n</li>",
        Tag::FindingsEnd => "</ol>\n",
        Tag::WaysOpen => "\n<ul>\n",
        Tag::WayOpen => "<li>in <code>",
        Tag::WayRange => ": ",
        Tag::WayEnd => "</li>\n",
        Tag::CodeEnd => "</code>",
        Tag::CallOpen => ", which calls <code>",
        Tag::CallAt => "</code> at ",
        Tag::LinkOpen => "<a href=\"#f",
        Tag::LinkLine => "-",
        Tag::LinkEnd => "</a>",
        Tag::Colon => ":",
        Tag::TableOpen => {
            "<h3>Functions</h3>\n<table>\n<thead><tr><th scope=\"col\">Function</th><th scope=\"col\">Safe</th>\n"
        }
        Tag::TableColumns => {
            "<th scope=\"col\">Unknown</th><th scope=\"col\">Unreachable</th></tr></thead>\n<tbody>\n"
        }
        Tag::TableRow => "<tr><th scope=\"row\"><code>",
        Tag::TableFirst => "</code></th><td>",
        Tag::TableNext => "</td><td>",
        Tag::TableRowEnd => "</td></tr>\n",
        Tag::TableEnd => "</tbody>\n</table>\n",
        Tag::LoopsOpen => {
            "<h3>Loops</h3>\n<p>What holds in every run, whenever it is at the head of a loop.</p>\n"
        }
        Tag::LoopOpen => "<h4>Loop at ",
        Tag::PointOpen => "<h4>Point at ",
        Tag::LoopIn => ", in <code>",
        Tag::HeadingEnd => "</h4>\n",
        Tag::FactOpen => "<p><code>",
        Tag::ArrayMark => "[]",
        Tag::ElementOpen => "[",
        Tag::ElementEnd => "]",
        Tag::In => " in [",
        Tag::Comma => ", ",
        Tag::InEnd => "]",
        Tag::Class => " of the form ",
        Tag::Times => "k + ",
        Tag::Minus => "-",
        Tag::Difference => " - ",
        Tag::Sum => " + ",
        Tag::AtMost => " &le; ",
        Tag::FactEnd => "</code></p>\n",
        Tag::NoRun => "<p>No run comes here.</p>\n",
        Tag::SourceOpen => {
            "<h3>Source</h3>\n<p>As the preprocessor gives it, with the numbers of the lines that it comes from.</p>\n"
        }
        Tag::OriginOpen => "<h4><code>",
        Tag::OriginEnd => "</code></h4>\n",
        Tag::LineOpen => "<p class=\"line\" id=\"f",
        Tag::LineNumber => "\"><span>",
        Tag::LineText => "</span><code>",
        Tag::LineEnd => "</code></p>\n",
        Tag::SafeOpen => "<u>",
        Tag::SafeEnd => "</u>",
        Tag::UnknownOpen => "<mark>",
        Tag::UnknownEnd => "</mark>",
        Tag::UnreachableOpen => "<s>",
        Tag::UnreachableEnd => "</s>",
    }
}
