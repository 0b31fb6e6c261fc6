// The command.

ghost use Rattle.std.specs.Prelude.{◌≡◌, ◌≢◌, ◌⊎◌, ◌≤◌, ℕ, List, map, length, string_bytes, IfOk, IfErr, OnOk, false, Some};
ghost use Rattle.std.specs.Io.KnownBytes.{Keeps, IsAtEnd};
ghost use Rattle.pk_command.specs.CommandLine.{is_taken};
ghost use Rattle.pk_command.specs.Given.{AsksFor, IsInRange};
ghost use Rattle.pk_io.specs.Causes.{Rose};
ghost use Rattle.pk_ctypes.specs.declared.words.Quantity.TheVariants.{Text};
ghost use Rattle.pk_cert_cells.specs.Cells.{most_bytes};
ghost use Rattle.pk_text_report.specs.Answers.{IsAnswer, IsShort, AskAbout, AskNoSource, IsMaking, text_limit, text_of};
ghost use Rattle.pk_top.specs.Headline.{Answers, Gives, IsStop, IsSuccess, IsTextless, IsUnread, IsUntold, KeepsUnlessTold};
ghost use Rattle.pk_top.specs.Holding.{HoldFor, TrueFor, Writes};
ghost use Rattle.pk_top.specs.Truth.{AskFaultless, AskInRange, TellsTruth};

use pk_cert_cells::MOST_BYTES;
use pk_command::{Command, WordsError, read_words};
use pk_ctypes::Quantity;
use pk_front::accepted_are_programs;
use pk_gen::generate;
use pk_io::{ReadError, Sink, Source, read_all, write_all};
use pk_report_laws::{
    checks_are_faultless, checks_are_true_of_programs, programs_are_faultless,
    reports_are_true_of_programs,
};
use pk_status::Status;
use pk_text_report::told;
use pk_workers::Gate;
use std::alloc::Global;
use std::sync::Wait;
use std::thread::Threads;

/// The greatest number of bytes of a text.
pub const TEXT_LIMIT: usize = 4194304;

// The command that the words ask for.
fn command(alloc: Global, words: &[String]) -> Result<Command, Status>
    ensures asked { IfOk result (AsksFor (map string_bytes words.now)) }
    ensures range { IfOk result IsInRange }
    ensures usage { result ≡ Err Status.Usage → is_taken (map string_bytes words.now) ≡ false }
    ensures stop { IfErr result (λ s. (s ≡ Status.Usage) ⊎ (s ≡ Status.Memory)) }
{
    match read_words(alloc, words) {
        Ok(command) => Ok(command),
        Err(WordsError::Usage) => Err(Status::Usage),
        Err(WordsError::Memory) => Err(Status::Memory),
    }
}

// The whole text of a source.
fn source_text<S: Source>(alloc: Global, src: &mut S) -> Result<Vec<u8>, Status>
    ensures text { (t : List ℕ) → S.left src.old ≡ Some t → IfOk result (λ bytes. bytes.items ≡ t) }
    ensures short { IfOk result (λ bytes. length bytes.items ≤ text_limit) }
    ensures none { (t : List ℕ) → S.left src.old ≡ Some t →
        IfErr result (IsUnread text_limit (Status.Limit Text text_limit) t) }
    ensures stop { IfErr result IsStop }
    ensures fault { result ≡ Err Status.ReadFault → Rose (S.faults src.old) (S.faults src.new) }
    ensures usage { result ≡ Err Status.Usage → ⊥ }
    ensures whole { OnOk result (IsAtEnd (S.left src.new)) }
{
    match read_all(alloc, src, TEXT_LIMIT) {
        Ok(text) => Ok(text),
        Err(ReadError::ReadFault) => Err(Status::ReadFault),
        Err(ReadError::Memory) => Err(Status::Memory),
        Err(ReadError::TooLong) => Err(Status::Limit {
            what: Quantity::Text,
            number: TEXT_LIMIT as u64,
        }),
    }
}

// The whole certificate of a source.
fn source_certificate<S: Source>(alloc: Global, src: &mut S) -> Result<Vec<u8>, Status>
    ensures text { (t : List ℕ) → S.left src.old ≡ Some t → IfOk result (λ bytes. bytes.items ≡ t) }
    ensures short { IfOk result (λ bytes. length bytes.items ≤ most_bytes) }
    ensures none { (t : List ℕ) → S.left src.old ≡ Some t →
        IfErr result (IsUnread most_bytes Status.CertLimit t) }
    ensures stop { IfErr result IsStop }
    ensures fault { result ≡ Err Status.ReadFault → Rose (S.faults src.old) (S.faults src.new) }
    ensures usage { result ≡ Err Status.Usage → ⊥ }
    ensures whole { OnOk result (IsAtEnd (S.left src.new)) }
{
    match read_all(alloc, src, MOST_BYTES) {
        Ok(bytes) => Ok(bytes),
        Err(ReadError::ReadFault) => Err(Status::ReadFault),
        Err(ReadError::Memory) => Err(Status::Memory),
        Err(ReadError::TooLong) => Err(Status::CertLimit),
    }
}

// What a command is about.
fn text<S: Source>(alloc: Global, command: &Command, src: &mut S) -> Result<Vec<u8>, Status>
    requires range { IsInRange command.now }
    ensures text { (t : List ℕ) → text_of command.now (S.left src.old) ≡ Some t →
        IfOk result (λ bytes. bytes.items ≡ t) }
    ensures short { IfOk result (λ bytes. IsShort bytes.items command.now) }
    ensures none { (t : List ℕ) → text_of command.now (S.left src.old) ≡ Some t →
        IfErr result (IsTextless t command.now) }
    ensures stop { IfErr result IsStop }
    ensures fault { result ≡ Err Status.ReadFault → Rose (S.faults src.old) (S.faults src.new) }
    ensures usage { result ≡ Err Status.Usage → ⊥ }
    ensures unread { IsMaking command.now → src.new ≡ src.old }
    ensures whole { OnOk result (IsMaking command.now ⊎ IsAtEnd (S.left src.new)) }
{
    match command {
        Command::Run(_) => source_text(alloc, src),
        Command::Order(_) => source_text(alloc, src),
        Command::Gen(options) => Ok(generate(alloc, options.seed, options.size)?),
        Command::Cert(_) => source_text(alloc, src),
        Command::Check => source_certificate(alloc, src),
    }
}

// What `told` gives for the text that the words ask about. It has no sink, so it writes nothing.
fn make<R: Threads + Wait + Sync, S: Source, G: Gate + Sync>(
    rt: &R,
    alloc: Global,
    words: &[String],
    src: &mut S,
    gate: &G,
) -> Result<(Vec<u8>, u64), Status>
    ensures made { (text : List ℕ) → AskAbout (map string_bytes words.now) (S.left src.old) text → IfOk result (λ made.
        IsAnswer (map string_bytes words.now) text (Status.Ok made.1) made.0.items) }
    ensures untold { (text : List ℕ) → AskAbout (map string_bytes words.now) (S.left src.old) text →
        IfErr result (IsUntold (map string_bytes words.now) text) }
    ensures range { OnOk result (AskInRange (map string_bytes words.now)) }
    ensures stop { IfErr result IsStop }
    ensures usage { result ≡ Err Status.Usage → is_taken (map string_bytes words.now) ≡ false }
    ensures refused { is_taken (map string_bytes words.now) ≡ false →
        (result ≡ Err Status.Usage) ⊎ (result ≡ Err Status.Memory) }
    ensures unread { AskNoSource (map string_bytes words.now) → src.new ≡ src.old }
    ensures whole { OnOk result (AskNoSource (map string_bytes words.now) ⊎ IsAtEnd (S.left src.new)) }
    ensures fault { result ≡ Err Status.ReadFault → Rose (S.faults src.old) (S.faults src.new) }
{
    let command = command(alloc, words)?;
    let text = text(alloc, &command, src)?;
    told(rt, alloc, gate, &command, &text)
}

/// Answers the words, which are those after the program's name, and the text of `src`, and writes the answer to `out`.
pub fn pikos<R: Threads + Wait + Sync, S: Source, K: Sink, G: Gate + Sync>(
    rt: &R,
    alloc: Global,
    words: &[String],
    src: &mut S,
    out: &mut K,
    gate: &G,
) -> Status
    // Where the words ask about a text, the status and the bytes are the answer's, unless a device or the memory failed.
    ensures answer { (text : List ℕ) → AskAbout (map string_bytes words.now) (S.left src.old) text →
        Answers (map string_bytes words.now) text result (K.written out.old) (K.written out.new) }

    // At a success what was written is true of every run of the C program that the text is, or that stands in the certificate that was checked: of what its visits know, and of the fault at its end.
    ensures truth { (text : List ℕ) → AskAbout (map string_bytes words.now) (S.left src.old) text → (unknown : ℕ) →
        result ≡ Status.Ok unknown →
        TellsTruth (map string_bytes words.now) text unknown (K.written out.old) (K.written out.new) }

    // So, of less that must be read: what is told of accesses and of points holds of every run of that program,
    ensures holds { (text : List ℕ) → AskAbout (map string_bytes words.now) (S.left src.old) text → (unknown : ℕ) →
        result ≡ Status.Ok unknown →
        Writes HoldFor (map string_bytes words.now) text unknown (K.written out.old) (K.written out.new) }

    // and it is told of the points of the program's graph, its accesses, loops and heads, and is true of them, whatever found it.
    ensures points { (text : List ℕ) → AskAbout (map string_bytes words.now) (S.left src.old) text → (unknown : ℕ) →
        result ≡ Status.Ok unknown →
        Writes TrueFor (map string_bytes words.now) text unknown (K.written out.old) (K.written out.new) }

    // At a success with no unknown verdict no run of that program fails.
    ensures no_fault { (text : List ℕ) → AskAbout (map string_bytes words.now) (S.left src.old) text →
        result ≡ Status.Ok 0 → AskFaultless (map string_bytes words.now) text }

    // A fault of reading or writing is told only where the device has counted one in this call.
    ensures read_fault { result ≡ Status.ReadFault → Rose (S.faults src.old) (S.faults src.new) }
    ensures write_fault { (sent : ℕ) → result ≡ Status.WriteFault sent → Rose (K.faults out.old) (K.faults out.new) }

    // With no fault and enough memory the status and the bytes are the answer's.
    ensures complete { (Rose (S.faults src.old) (S.faults src.new) → ⊥) →
        (Rose (K.faults out.old) (K.faults out.new) → ⊥) →
        result ≢ Status.Memory → (text : List ℕ) → AskAbout (map string_bytes words.now) (S.left src.old) text →
        Gives (map string_bytes words.now) text result (K.written out.old) (K.written out.new) }

    // Only words that aren't taken are told as usage. They are refused, whatever the devices do.
    ensures usage { result ≡ Status.Usage → is_taken (map string_bytes words.now) ≡ false }
    ensures refused { is_taken (map string_bytes words.now) ≡ false →
        (result ≡ Status.Usage) ⊎ (result ≡ Status.Memory) }

    // Words that aren't taken and those that ask for a made text leave the source as it was.
    ensures unread { AskNoSource (map string_bytes words.now) → src.new ≡ src.old }

    // Whether or not the source tells its text, nothing is written but at a success and a fault of writing.
    ensures nothing { KeepsUnlessTold result (K.written out.old) (K.written out.new) }

    // At a success a source that was asked was read to its end.
    ensures whole { IsSuccess result → AskNoSource (map string_bytes words.now) ⊎ IsAtEnd (S.left src.new) }
{
    accepted_are_programs();
    reports_are_true_of_programs();
    programs_are_faultless();
    checks_are_true_of_programs();
    checks_are_faultless();
    let (bytes, unknown) = match make(rt, alloc, words, src, gate) {
        Ok(made) => made,
        Err(status) => return status,
    };
    match write_all(out, &bytes) {
        Ok(()) => Status::Ok { unknown },
        Err(fault) => Status::WriteFault { sent: fault.sent },
    }
}
