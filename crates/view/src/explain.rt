//! What is wrong with a text, and what may be in its place.

ghost use Rattle.std.specs.Prelude.{◌≡◌, IfOk, IfSome, None, string_bytes};
ghost use Rattle.view.specs.Explains.{SaysLine, no_fault_text};

use crate::condition_parts::{Part, Subject, part_at_fault, part_name, part_text};
use crate::fault::{Fault, limit, line_text};
use crate::field_domain::{Domain, TextSetting, write_domain};
use crate::given_names::GivenNames;
use crate::match_template::{domain_at, front, has_shape, is_open, length_of, name_at, refused_at};
use crate::print_bytes::{write_bytes, write_content};
use crate::templates::templates_at;
use crate::text_kind::{TextKind, kind_of};
use smp_mask::{Cause, CpuMask};
use smp_script::decimal::read_from_to;
use smp_script::line::{fields, is_word, split_part};
use smp_script::script::MAX_BYTES;
use std::alloc::{AllocError, Allocator};

// What is said of a text that has too much.
fn size_text(kind: Option<TextKind>) -> &'static str {
    match kind {
        Some(TextKind::Trace) => {
            "a trace has at most 16,777,216 bytes, 1,000,000 lines, and 1,024 bytes in a line"
        }
        Some(TextKind::Exploration) => { "an exploration has at most 65,536 bytes and 2,000 lines" }
        _ => "a script has at most 65,536 bytes, 2,000 lines and 100,000 events",
    }
}

// What a cause says.
fn cause_text(kind: Option<TextKind>, cause: Cause) -> &'static str {
    match cause {
        Cause::TooLong => size_text(kind),
        Cause::Cut => "the text ends before this line does: a line feed ends each line",
        Cause::Word => "a wrong word, or too few or too many fields",
        Cause::Number => "a field that is no decimal number",
        Cause::Range => "a number outside the range of its field",
        Cause::Mask => "a field that is no list of CPUs",
        Cause::SharedKey => "an earlier line changes the key of this one on another CPU",
    }
}

// The CPUs that are online by the second line of a text; none where it names none.
fn online_in(text: &[u8]) -> CpuMask {
    let Some(line) = line_text(text, 2) else {
        return CpuMask::empty();
    };
    let Some((_, rest)) = split_part(line, b' ') else {
        return CpuMask::empty();
    };
    match split_part(rest, b' ') {
        Some((_, mask)) if mask.len() <= MAX_BYTES => {
            CpuMask::parse(mask).unwrap_or(CpuMask::empty())
        }
        _ => CpuMask::empty(),
    }
}

// Whether a text is a trace of version 3.
fn is_third(text: &[u8]) -> bool {
    match line_text(text, 1) {
        Some(title) => is_word(title, b"smp 3 trace"),
        None => false,
    }
}

// How many CPUs the second line of a text names, where these are more than 32; else 0.
fn many_in(text: &[u8]) -> u32 {
    let Some(line) = line_text(text, 2) else {
        return 0;
    };
    let Some((_, rest)) = split_part(line, b' ') else {
        return 0;
    };
    match split_part(rest, b' ') {
        Some((nr, _)) => read_from_to(nr, 33, 512).unwrap_or(0),
        None => 0,
    }
}

// Whether the line of this number leaves out the order of queues and unlocks.
fn has_no_order(text: &[u8], line: u32) -> bool {
    let Some(groups) = line_text(text, line) else {
        return false;
    };
    let mut words = groups.split(|byte| *byte == b' ');
    groups.starts_with(b"without ")
        && words.any(|word| is_word(word, b"order"))
        && words.any(|word| is_word(word, b"unlocks"))
}

// What the first lines of a text settle.
fn setting_in<A: Allocator>(alloc: A, text: &[u8]) -> Result<TextSetting, AllocError> {
    let limit = limit(alloc, text)?;
    let is_third = is_third(text);
    Ok(TextSetting {
        kind: kind_of(text).unwrap_or(TextKind::Replay),
        limit: if is_third { 32 } else { limit },
        most: if is_third { 512 } else { limit },
        many: if is_third { many_in(text) } else { 0 },
        is_third,
        has_unknown: is_third && (has_no_order(text, 3) || has_no_order(text, 4)),
        online: online_in(text),
        given: GivenNames::of(text),
    })
}

/// A line at fault, and the templates that it may keep to.
#[derive(Drop)]
struct Wrong<'a, A: Allocator> {
    setting: TextSetting,
    cause: Cause,
    fields: &'a [&'a [u8]],
    templates: &'a [String<A>],
}

impl<'a, A: Allocator> Wrong<'a, A> {
    // Whether the fault is that of a field with the right words.
    fn is_of_a_value(&self) -> bool {
        matches!(self.cause, Cause::Number | Cause::Range | Cause::Mask)
    }

    // In version 3 two lines of different lengths have the same name: of one that is as long as the shorter, the last field where
    // that alone is wrong.
    fn last_of_shorter(&self) -> Option<usize> {
        let last = self.fields.len().checked_sub(1)?;
        let is_it = |template: &String<A>| {
            let template = template.as_str();
            length_of(template) == self.fields.len()
                && front(&self.setting, template, self.fields) == last
        };
        if self.setting.is_third && self.templates.iter().any(is_it) {
            Some(last)
        } else {
            None
        }
    }

    // The field at fault, counted from 0: of a wrong word or number of fields the first at which the line leaves all templates,
    // else the first that is refused.
    fn field_at_fault(&self) -> usize {
        let mut furthest = 0usize;
        for template in self.templates {
            let template = template.as_str();
            if self.is_of_a_value() && has_shape(&self.setting, template, self.fields) {
                return refused_at(&self.setting, template, self.fields);
            }
            furthest = furthest.max(front(&self.setting, template, self.fields));
        }
        if furthest < self.fields.len() {
            return furthest;
        }
        self.last_of_shorter().unwrap_or(furthest)
    }

    // Whether the line keeps to a template up to this field.
    fn keeps(&self, template: &str, at: usize) -> bool {
        if self.is_of_a_value() {
            return has_shape(&self.setting, template, self.fields);
        }
        front(&self.setting, template, self.fields) >= at
            && (length_of(template) >= at || is_open(template))
    }
}

// The templates that a line keeps to up to this field.
fn candidates<'a, A: Allocator + Copy>(
    alloc: A,
    wrong: &Wrong<'a, A>,
    at: usize,
) -> Result<Vec<&'a str, A>, AllocError> {
    let mut found = Vec::new(alloc);
    for template in wrong.templates {
        if wrong.keeps(template.as_str(), at) {
            found.push(template.as_str())?;
        }
    }
    Ok(found)
}

// The name of a field, where all of these templates have the same there.
fn common_name<'a>(setting: &TextSetting, found: &[&'a str], at: usize) -> Option<&'a str> {
    let [first, rest @ ..] = found else {
        return None;
    };
    let name = name_at(setting, first, at);
    if rest.iter().all(|other| name_at(setting, other, at) == name) {
        name
    } else {
        None
    }
}

// What one template may have at a field that is no word of its own; nothing of such a word.
fn write_other<A: Allocator>(
    out: &mut String<A>,
    setting: &TextSetting,
    template: &str,
    at: usize,
) -> Result<(), AllocError> {
    match domain_at(setting, template, at) {
        Some(Domain::Word(_)) => Ok(()),
        Some(domain) => write_domain(out, setting, domain),
        None => write!(out, "the end of the line"),
    }
}

// Adds a text, where it is not there yet and not empty.
fn push_new<A: Allocator>(
    texts: &mut Vec<String<A>, A>,
    text: String<A>,
) -> Result<(), AllocError> {
    if !text.is_empty() && !texts.iter().any(|other| other.as_str() == text.as_str()) {
        texts.push(text)?;
    }
    Ok(())
}

// The words that these templates may have at a field, each once.
fn words_at<A: Allocator + Copy>(
    alloc: A,
    setting: &TextSetting,
    found: &[&str],
    at: usize,
) -> Result<String<A>, AllocError> {
    let mut words: Vec<&str, A> = Vec::new(alloc);
    for template in found {
        if let Some(Domain::Word(word)) = domain_at(setting, template, at) {
            if !words.iter().any(|other| *other == word) {
                words.push(word)?;
            }
        }
    }
    words.join(alloc, ", ")
}

// Adds what else one template may have at a field.
fn push_other<A: Allocator + Copy>(
    alloc: A,
    texts: &mut Vec<String<A>, A>,
    setting: &TextSetting,
    template: &str,
    at: usize,
) -> Result<(), AllocError> {
    let mut text = String::new(alloc);
    write_other(&mut text, setting, template, at)?;
    push_new(texts, text)
}

// What may be at a field, each once: first the words, then what else these templates may have there.
fn all_at<A: Allocator + Copy>(
    alloc: A,
    setting: &TextSetting,
    found: &[&str],
    at: usize,
) -> Result<Vec<String<A>, A>, AllocError> {
    let mut texts = Vec::new(alloc);
    let words = words_at(alloc, setting, found, at)?;
    push_new(&mut texts, words)?;
    for template in found {
        push_other(alloc, &mut texts, setting, template, at)?;
    }
    Ok(texts)
}

// The number of a field, counted from 1, with its name where it has one.
fn write_number<A: Allocator>(
    out: &mut String<A>,
    at: usize,
    name: Option<&str>,
) -> Result<(), AllocError> {
    let number = at.saturating_add(1);
    match name {
        Some(name) => write!(out, "  field {number}, {name}: "),
        None => write!(out, "  field {number}: "),
    }
}

// Each of these may be at a field.
fn write_texts<A: Allocator>(out: &mut String<A>, texts: &[String<A>]) -> Result<(), AllocError> {
    for text in texts {
        writeln!(out, "    here may be: {text}")?;
    }
    Ok(())
}

// What these templates may have at a field, and the template where it is one alone.
fn write_found<A: Allocator + Copy>(
    alloc: A,
    out: &mut String<A>,
    setting: &TextSetting,
    found: &[&str],
    at: usize,
) -> Result<(), AllocError> {
    let texts = all_at(alloc, setting, found, at)?;
    write_texts(out, texts.as_slice())?;
    match found {
        [template] => writeln!(out, "    the line: {template}"),
        _ => Ok(()),
    }
}

// What a field at fault has, and what it may have.
fn write_field<A: Allocator + Copy>(
    alloc: A,
    out: &mut String<A>,
    wrong: &Wrong<'_, A>,
    at: usize,
) -> Result<(), AllocError> {
    let found = candidates(alloc, wrong, at)?;
    write_number(out, at, common_name(&wrong.setting, &found, at))?;
    write_content(out, wrong.fields, at)?;
    write_found(alloc, out, &wrong.setting, found.as_slice(), at)
}

// What the numbers of a name may be, where one is refused.
fn write_given<A: Allocator>(
    out: &mut String<A>,
    given: GivenNames,
    part: Part,
    cause: Cause,
) -> Result<(), AllocError> {
    let GivenNames { nr, keys, sites } = given;
    match part {
        Part::Value(Subject::Word) => Ok(()),
        _ if cause == Cause::Range => writeln!(
            out,
            "    lines 2 and 3 give: CPUs below {nr}, keys below {keys}, sites below {sites}"
        ),
        _ => Ok(()),
    }
}

// What a field of a condition has, and what it may have.
fn write_part<A: Allocator + Copy>(
    alloc: A,
    out: &mut String<A>,
    wrong: &Wrong<'_, A>,
) -> Result<(), AllocError> {
    let given = wrong.setting.given;
    let (at, part) = part_at_fault(alloc, given, wrong.fields, wrong.cause)?;
    write_number(out, at, Some(part_name(part)))?;
    write_content(out, wrong.fields, at)?;
    let text = part_text(part);
    writeln!(out, "    here may be: {text}")?;
    write_given(out, given, part, wrong.cause)
}

// Whether the line is one of an exploration with a condition.
fn has_condition(setting: &TextSetting, fields: &[&[u8]]) -> bool {
    match fields {
        [first, ..] if setting.kind == TextKind::Exploration => {
            is_word(first, b"always") || is_word(first, b"never") || is_word(first, b"finally")
        }
        _ => false,
    }
}

// What is wrong with a line.
fn write_wrong<A: Allocator + Copy>(
    alloc: A,
    out: &mut String<A>,
    wrong: &Wrong<'_, A>,
) -> Result<(), AllocError> {
    if has_condition(&wrong.setting, wrong.fields) {
        return write_part(alloc, out, wrong);
    }
    match wrong.cause {
        Cause::TooLong | Cause::Cut | Cause::SharedKey => Ok(()),
        _ => write_field(alloc, out, wrong, wrong.field_at_fault()),
    }
}

// What is wrong with a line that is there.
fn write_line<A: Allocator + Copy>(
    alloc: A,
    out: &mut String<A>,
    text: &[u8],
    fault: Fault,
    line: &[u8],
) -> Result<(), AllocError> {
    write!(out, "  ")?;
    write_bytes(out, line)?;
    writeln!(out, "")?;
    let kind = kind_of(text);
    let setting = setting_in(alloc, text)?;
    let fields = fields(alloc, line)?;
    let templates = templates_at(alloc, kind, fault.line, &setting)?;
    let wrong = Wrong {
        setting,
        cause: fault.cause,
        fields: fields.as_slice(),
        templates: templates.as_slice(),
    };
    write_wrong(alloc, out, &wrong)
}

// What is said of a fault behind the number of its line.
fn details<A: Allocator + Copy>(
    alloc: A,
    text: &[u8],
    fault: Fault,
) -> Result<String<A>, AllocError> {
    let mut out = String::new(alloc);
    let cause = fault.cause;
    let meaning = cause_text(kind_of(text), cause);
    writeln!(out, "{cause}: {meaning}")?;
    if let Some(line) = line_text(text, fault.line) {
        // a text that is too long is at fault as a whole
        if fault.line > 0 && line.len() <= MAX_BYTES {
            write_line(alloc, &mut out, text, fault, line)?;
        }
    }
    Ok(out)
}

/// What is said of a text by its first fault: the line and the cause, the line itself, the field at fault by its number
/// and its name, what is there, what may be there, and the line that it belongs to. The kind of the text is that
/// of its first line.
pub fn explanation<A: Allocator + Copy>(
    alloc: A,
    text: &[u8],
    found: Option<Fault>,
) -> Result<String<A>, AllocError>
    ensures none { IfOk result (λ said. found ≡ None → string_bytes said ≡ no_fault_text) }
    ensures line { IfOk result (λ said. IfSome found (λ f. SaysLine f.line (string_bytes said))) }
{
    let mut out = String::new(alloc);
    let Some(fault) = found else {
        writeln!(out, "no fault")?;
        return Ok(out);
    };
    let line = fault.line;
    let more = details(alloc, text, fault)?;
    write!(out, "line {line} ")?;
    out.push_str(more.as_str())?;
    Ok(out)
}
