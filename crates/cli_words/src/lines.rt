//! The error line of each refusal.

ghost use Rattle.std.specs.Prelude.{◌≡◌, ◌≢◌, IfOk};
ghost use Rattle.std.specs.String.{string_bytes};
ghost use Rattle.packaging_terms.specs.Details.{design_text, key_text, playlist_text, title_text};
ghost use Rattle.outcome_terms.specs.Statuses.{error_text, fault_line, kind_text, name_line, refusal_line, refusal_status, rule_text, verdict_text, word_fault_text};
ghost use Rattle.cli_words.specs.Details.{detail_text};

use crate::errors::error_line;
use code_terms::WordFault;
use lists::Memory;
use outcome_terms::{Fault, Refusal, Status};
use playlist_terms::PlaylistFault;
use register_terms::{NameRefusal, RegisterError, RegisterKind};
use report_terms::Verdict;
use std::alloc::{AllocError, Global};
use title_terms::{DesignFault, Key, TitleKind};

/// What a line says after the status.
#[derive(Clone, Copy, Debug)]
enum Detail<'a> {
    /// A name, or a fixed word.
    Word(&'a str),
    /// A number.
    Number(u128),
    /// Two numbers.
    Numbers(u32, u32),
    /// A number, and a fixed word.
    NumberAndWord(u32, &'a str),
    /// Two numbers, and two more.
    FourNumbers(u32, u32, u32, u32),
    /// Two fixed words.
    Words(&'a str, &'a str),
    /// A fixed word, and a number.
    WordAndNumber(&'a str, u32),
}

/// What an error line tells.
#[derive(Clone, Copy, Debug)]
struct Line<'a> {
    status: Status,
    detail: Detail<'a>,
}

/// The error line of a refusal. The only error is want of memory.
pub fn refusal_line(alloc: Global, refusal: &Refusal) -> Result<Vec<u8>, Memory>
    ensures { IfOk result (λ line. line.items ≡ error_text refusal.now) }
{
    let line = line_of_refusal(refusal);
    let detail = detail_string(alloc, line.detail)?;
    error_line(alloc, line.status, detail.as_str())
}

/// The status that a refusal ends with.
pub fn refusal_status(refusal: &Refusal) -> Status
    ensures { result ≡ refusal_status refusal.now }
{
    line_of_refusal(refusal).status
}

/// What the line of a refusal tells.
fn line_of_refusal<'a>(refusal: &'a Refusal) -> Line<'a>
    ensures status { result.status ≡ (refusal_line refusal.now).status }
    ensures detail { detail_text result.detail ≡ (refusal_line refusal.now).detail }
    ensures not_done { result.status ≢ Status.Ok }
    ensures not_put { result.status ≢ Status.OutFault }
{
    match refusal {
        Refusal::Memory => telling(Status::Memory, Detail::Word("memory")),
        Refusal::BadWords => telling(Status::BadWords, Detail::Word("words")),
        Refusal::Missing(name) => telling(Status::Missing, Detail::Word(name.as_str())),
        Refusal::ReadFault(name) => telling(Status::ReadFault, Detail::Word(name.as_str())),
        Refusal::WriteFault(name) => telling(Status::WriteFault, Detail::Word(name.as_str())),
        Refusal::TooLong(name) => telling(Status::TooLong, Detail::Word(name.as_str())),
        Refusal::Content(fault) => line_of_fault(fault),
    }
}

/// What the line of a fault of the words or the blobs tells.
fn line_of_fault<'a>(fault: &'a Fault) -> Line<'a>
    ensures status { result.status ≡ (fault_line fault.now).status }
    ensures detail { detail_text result.detail ≡ (fault_line fault.now).detail }
    ensures not_done { result.status ≢ Status.Ok }
    ensures not_put { result.status ≢ Status.OutFault }
{
    match fault {
        Fault::BadDesign(broken) => telling(Status::BadDesign, design_detail(*broken)),
        Fault::BadPlaylist(at) => telling(
            Status::BadPlaylist,
            Detail::NumberAndWord(at.line, playlist_fault_name(at.fault)),
        ),
        Fault::BadTitle(at) => telling(
            Status::BadTitle,
            Detail::NumberAndWord(at.line, title_kind_name(at.kind)),
        ),
        Fault::BadRegister(at) => telling(
            Status::BadRegister,
            Detail::NumberAndWord(at.line, kind_name(at.kind)),
        ),
        Fault::BadReport => telling(Status::BadReport, Detail::Word("report")),
        Fault::Mismatch {
            title_bits,
            title_dimension,
            register_bits,
            register_dimension,
        } => telling(
            Status::Mismatch,
            Detail::FourNumbers(
                *title_bits,
                *title_dimension,
                *register_bits,
                *register_dimension,
            ),
        ),
        Fault::BadBound(bound) => telling(Status::BadBound, Detail::Number(*bound)),
        Fault::TooFew {
            readable,
            not_enough,
        } => telling(Status::TooFew, Detail::Numbers(*readable, *not_enough)),
        Fault::NotEnrolled(refusal) => line_of_name(*refusal),
        Fault::Unknown(name) => telling(Status::Unknown, Detail::Word(name.as_str())),
        Fault::Withdrawn(name) => telling(Status::Withdrawn, Detail::Word(name.as_str())),
        Fault::Duplicate {
            place,
            symbol,
            again_place,
            again_symbol,
        } => telling(
            Status::Duplicate,
            Detail::FourNumbers(*place, *symbol as u32, *again_place, *again_symbol as u32),
        ),
        Fault::SameName(name) => telling(Status::SameName, Detail::Word(name.as_str())),
        Fault::Differs(wrong) => telling(Status::Differs, verdict_detail(*wrong)),
        Fault::BadWord(at) => telling(Status::BadWord, word_detail(*at)),
        Fault::BadParameters(rule) => telling(
            Status::BadParameters,
            Detail::Word(rule_name(*rule)),
        ),
        Fault::NoSegment(segment) => telling(Status::NoSegment, Detail::Number(*segment as u128)),
    }
}

/// What the line of a name that is not enrolled tells.
fn line_of_name<'a>(refusal: NameRefusal) -> Line<'a>
    ensures status { result.status ≡ (name_line refusal).status }
    ensures detail { detail_text result.detail ≡ (name_line refusal).detail }
    ensures not_done { result.status ≢ Status.Ok }
    ensures not_put { result.status ≢ Status.OutFault }
{
    match refusal {
        NameRefusal::BadName => telling(Status::BadName, Detail::Word("name")),
        NameRefusal::NameTaken(serial) => telling(
            Status::NameTaken,
            Detail::Number(serial as u128),
        ),
        NameRefusal::Full(licensees) => telling(Status::Full, Detail::Number(licensees as u128)),
    }
}

/// How a blob breaks the form of a word.
fn word_detail<'a>(fault: WordFault) -> Detail<'a>
    ensures { detail_text result ≡ word_fault_text fault }
{
    match fault {
        WordFault::Token(place) => Detail::WordAndNumber("token", place),
        WordFault::Long => Detail::Word("long"),
    }
}

/// What is wrong with a report.
fn verdict_detail<'a>(verdict: Verdict) -> Detail<'a>
    ensures { detail_text result ≡ verdict_text verdict }
{
    match verdict {
        Verdict::Right => Detail::Word("right"),
        Verdict::TooFew(readable) => Detail::WordAndNumber("too-few", readable),
        Verdict::WrongReadable => Detail::Word("wrong-readable"),
        Verdict::NotEnrolled(position) => Detail::WordAndNumber("not-enrolled", position),
        Verdict::Order(position) => Detail::WordAndNumber("order", position),
        Verdict::WrongPlaces(position) => Detail::WordAndNumber("wrong-places", position),
        Verdict::Below(position) => Detail::WordAndNumber("below", position),
        Verdict::Absent(serial) => Detail::WordAndNumber("absent", serial),
    }
}

/// What is wrong with a design.
fn design_detail<'a>(fault: DesignFault) -> Detail<'a>
    ensures { detail_text result ≡ design_text fault }
{
    match fault {
        DesignFault::NotToml => Detail::Word("not-toml"),
        DesignFault::Missing(key) => Detail::Words("missing", key_name(key)),
        DesignFault::WrongType(key) => Detail::Words("wrong-type", key_name(key)),
        DesignFault::BadName => Detail::Word("bad-name"),
        DesignFault::BadM => Detail::Word("bad-m"),
        DesignFault::BadK => Detail::Word("bad-k"),
        DesignFault::BadBound => Detail::Word("bad-bound"),
        DesignFault::TooMuchWork => Detail::Word("too-much-work"),
        DesignFault::BadPrefix => Detail::Word("bad-prefix"),
        DesignFault::BadSuffix => Detail::Word("bad-suffix"),
        DesignFault::BadMarked(item) => Detail::WordAndNumber("bad-marked", item),
        DesignFault::TooManyPlaces => Detail::Word("too-many-places"),
        DesignFault::TooWeak => Detail::Word("too-weak"),
    }
}

/// The line of a status with its detail.
fn telling<'a>(status: Status, detail: Detail<'a>) -> Line<'a>
    ensures status { result.status ≡ status }
    ensures detail { result.detail ≡ detail.entry }
{
    Line { status, detail }
}

/// The text of a detail.
fn detail_string(alloc: Global, detail: Detail<'_>) -> Result<String, AllocError>
    ensures { IfOk result (λ text. string_bytes text ≡ detail_text detail.entry) }
{
    match detail {
        Detail::Word(text) => String::from_str(alloc, text),
        Detail::Number(n) => format!(in alloc; "{n}"),
        Detail::Numbers(n, m) => format!(in alloc; "{n} {m}"),
        Detail::NumberAndWord(n, text) => format!(in alloc; "{n} {text}"),
        Detail::FourNumbers(n, m, o, p) => format!(in alloc; "{n} {m} {o} {p}"),
        Detail::Words(first, second) => format!(in alloc; "{first} {second}"),
        Detail::WordAndNumber(text, n) => format!(in alloc; "{text} {n}"),
    }
}

/// How a line breaks the form of a register.
fn kind_name(kind: RegisterKind) -> &'static str
    ensures { result.now ≡ kind_text kind }
{
    match kind {
        RegisterKind::Ending => "ending",
        RegisterKind::Header => "header",
        RegisterKind::BadM => "bad-m",
        RegisterKind::BadK => "bad-k",
        RegisterKind::BadMultiplier => "bad-multiplier",
        RegisterKind::BadShift => "bad-shift",
        RegisterKind::BadStatus => "bad-status",
        RegisterKind::BadName => "bad-name",
        RegisterKind::NameTaken => "name-taken",
        RegisterKind::Full => "full",
    }
}

/// Which rule the numbers of a new register break.
fn rule_name(rule: RegisterError) -> &'static str
    ensures { result.now ≡ rule_text rule }
{
    match rule {
        RegisterError::BadM => "bad-m",
        RegisterError::BadK => "bad-k",
        RegisterError::BadMultiplier => "bad-multiplier",
        RegisterError::BadShift => "bad-shift",
    }
}

/// A key of a design's document.
fn key_name(key: Key) -> &'static str
    ensures { result.now ≡ key_text key }
{
    match key {
        Key::Name => "name",
        Key::M => "m",
        Key::K => "k",
        Key::C => "c",
        Key::Prefix => "prefix",
        Key::Suffix => "suffix",
        Key::Marked => "marked",
    }
}

/// What is wrong with a line of a media playlist.
fn playlist_fault_name(fault: PlaylistFault) -> &'static str
    ensures { result.now ≡ playlist_text fault }
{
    match fault {
        PlaylistFault::NotM3u => "not-m3u",
        PlaylistFault::Utf8 => "utf8",
        PlaylistFault::Number => "number",
        PlaylistFault::Repeat => "repeat",
        PlaylistFault::TwoDurations => "two-durations",
        PlaylistFault::NoDuration => "no-duration",
        PlaylistFault::NoUri => "no-uri",
        PlaylistFault::BadUri => "bad-uri",
        PlaylistFault::Encrypted => "encrypted",
        PlaylistFault::Unsupported => "unsupported",
        PlaylistFault::TooMany => "too-many",
        PlaylistFault::NoTarget => "no-target",
        PlaylistFault::NoEnd => "no-end",
    }
}

/// How a line breaks the form of a title.
fn title_kind_name(kind: TitleKind) -> &'static str
    ensures { result.now ≡ title_text kind }
{
    match kind {
        TitleKind::Form => "form",
        TitleKind::Rule => "rule",
        TitleKind::Duplicate => "duplicate",
    }
}
