//! Keys that lines of two CPUs would change.

ghost use Rattle.std.specs.Prelude.{◌≡◌};
ghost use Rattle.smp_script.specs.Keys.{is_shared, key_of, requested_key, shares};

use crate::directive::Directive;
use crate::request::Request;

// The key that a request sets, raises or lowers.
fn requested_key(request: Request) -> Option<u32>
    ensures { result ≡ requested_key request }
{
    match request {
        Request::Set(key, _) | Request::Inc(key) | Request::Dec(key) => Some(key),
        _ => None,
    }
}

// The CPU of a line that sets, raises or lowers a key, and that key.
fn key_of(directive: &Directive) -> Option<(u32, u32)>
    ensures { result ≡ key_of directive.now }
{
    match directive {
        Directive::Do(cpu, _, request) => match requested_key(*request) {
            Some(key) => Some((*cpu, key)),
            None => None,
        },
        _ => None,
    }
}

// Whether both are of one key, and of two CPUs.
fn is_shared(one: Option<(u32, u32)>, other: Option<(u32, u32)>) -> bool
    ensures { result ≡ is_shared one other }
{
    match (one, other) {
        (Some((cpu, key)), Some((other_cpu, other_key))) => key == other_key && cpu != other_cpu,
        _ => false,
    }
}

/// Whether a line is for a key that an earlier line is for too, on another CPU.
pub fn shares(earlier: &[Directive], directive: &Directive) -> bool
    ensures { result ≡ shares earlier.now directive.now }
{
    let key = key_of(directive);
    earlier.iter().any(|e| is_shared(key, key_of(e)))
}
