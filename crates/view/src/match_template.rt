//! How far a line keeps to a template.

use crate::field_domain::{Domain, TextSetting, domain_of, has_word, is_refused};

// The field of a template at this place; the last one where it may be repeated.
fn field_at<'a>(template: &'a str, place: usize) -> Option<&'a str> {
    let mut last = None;
    let mut left = place;
    for field in template.split(' ') {
        if field == ".." {
            return last;
        }
        if left == 0 {
            return Some(field);
        }
        left -= 1;
        last = Some(field);
    }
    None
}

/// What a line of this template may have at this place; none where it has ended.
pub fn domain_at<'a>(setting: &TextSetting, template: &'a str, at: usize) -> Option<Domain<'a>> {
    let name = field_at(template, at)?;
    if name == "COND" {
        return None;
    }
    Some(domain_of(setting, template, name))
}

/// The name of the field at this place, as the formats have it; none of a word, and behind the end.
pub fn name_at<'a>(setting: &TextSetting, template: &'a str, at: usize) -> Option<&'a str> {
    let name = field_at(template, at)?;
    match domain_of(setting, template, name) {
        Domain::Word(_) => None,
        _ => Some(name),
    }
}

/// How many fields of a template there are, but for those that may be repeated.
pub fn length_of(template: &str) -> usize {
    template.split(' ').filter(|field| *field != "..").count()
}

/// Whether a line may be longer than its template.
pub fn is_open(template: &str) -> bool {
    template.ends_with(" ..") || template.ends_with(" COND")
}

/// How many fields at the front have the words that they have to have.
pub fn front(setting: &TextSetting, template: &str, fields: &[&[u8]]) -> usize {
    let mut count = 0usize;
    for field in fields {
        match field_at(template, count) {
            Some(name) if has_word(domain_of(setting, template, name), field) => {
                count = count.saturating_add(1);
            }
            _ => return count,
        }
    }
    count
}

/// Whether a line has the words of a template, and as many fields.
pub fn has_shape(setting: &TextSetting, template: &str, fields: &[&[u8]]) -> bool {
    let count = front(setting, template, fields);
    count == fields.len() && (count == length_of(template) || is_open(template))
}

/// The first field that is refused, of a line that has the words of a template.
pub fn refused_at(setting: &TextSetting, template: &str, fields: &[&[u8]]) -> usize {
    let mut count = 0usize;
    for field in fields {
        match field_at(template, count) {
            Some(name) if !is_refused(setting, domain_of(setting, template, name), field) => {
                count = count.saturating_add(1);
            }
            _ => return count,
        }
    }
    count
}
