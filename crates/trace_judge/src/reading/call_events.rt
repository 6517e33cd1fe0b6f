//! Events of calls, as lines tell them.

ghost use Rattle.std.specs.Prelude.{◌≡◌, map};
ghost use Rattle.trace_judge.specs.Reading.{begin_of, call_line, class_in, end_of, free_of, may_be_unknown, node_of, other_line, other_of};
ghost use Rattle.trace_judge.specs.Reading.{queue_line, queue_of, send_of, unlock_of};

use smp_mask::Cause;
use smp_script::decimal::{read_u16, read_u32, read_u64};
use smp_script::field::read_class;
use smp_script::line::is_word;
use smp_words::call::Class;
use trace_model::{CallEvent, Event, OtherNode, Setting};

pub(super) fn read_free(id: &[u8]) -> Result<Event, Cause>
    ensures { result ≡ free_of id.now }
{
    let id = read_u16(id)?;
    Ok(Event::Call(CallEvent::Free(id)))
}

pub(super) fn read_unlock(id: &[u8]) -> Result<Event, Cause>
    ensures { result ≡ unlock_of id.now }
{
    let id = read_u16(id)?;
    Ok(Event::Call(CallEvent::Unlock(id)))
}

pub(super) fn read_end(id: &[u8]) -> Result<Event, Cause>
    ensures { result ≡ end_of id.now }
{
    let id = read_u16(id)?;
    Ok(Event::Call(CallEvent::End(id)))
}

pub(super) fn read_send(to: &[u8]) -> Result<Event, Cause>
    ensures { result ≡ send_of to.now }
{
    let to = read_u32(to)?;
    Ok(Event::Call(CallEvent::Send(to)))
}

pub(super) fn read_begin(id: &[u8], func: &[u8], info: &[u8]) -> Result<Event, Cause>
    ensures { result ≡ begin_of id.now func.now info.now }
{
    let id = read_u16(id)?;
    let func = read_u64(func)?;
    let info = read_u64(info)?;
    Ok(Event::Call(CallEvent::Begin(id, func, info)))
}

fn read_queue(id: &[u8], to: &[u8], class: Class, func: &[u8], info: &[u8]) -> Result<Event, Cause>
    ensures { result ≡ queue_of id.now to.now class func.now info.now }
{
    let id = read_u16(id)?;
    let to = read_u32(to)?;
    let func = read_u64(func)?;
    let info = read_u64(info)?;
    Ok(Event::Call(CallEvent::Queue(id, to, class, func, info)))
}

/// Whether a class may be unknown: in version 3, where neither the order of queues nor unlocks are told.
fn may_be_unknown(setting: &Setting) -> bool
    ensures { result ≡ may_be_unknown setting.now }
{
    setting.is_third && setting.without.order && setting.without.unlocks
}

/// A class. A call whose class is unknown is judged as an ASYNC one.
fn read_class_in(setting: &Setting, text: &[u8]) -> Result<Class, Cause>
    ensures { result ≡ class_in setting.now text.now }
{
    if is_word(text, b"unknown") && may_be_unknown(setting) {
        return Ok(Class::Async);
    }
    read_class(text)
}

/// `wake` or `irqwork`: what joins a queue and is no call.
fn read_node(text: &[u8]) -> Result<OtherNode, Cause>
    ensures { result ≡ node_of text.now }
{
    if is_word(text, b"wake") {
        return Ok(OtherNode::Wake);
    }
    if is_word(text, b"irqwork") {
        return Ok(OtherNode::IrqWork);
    }
    Err(Cause::Word)
}

fn read_other(to: &[u8], node: OtherNode) -> Result<Event, Cause>
    ensures { result ≡ other_of to.now node }
{
    let to = read_u32(to)?;
    Ok(Event::Call(CallEvent::QueueOther(to, node)))
}

/// In version 3, D and what joins its queue that is no call.
fn read_other_line(is_third: bool, to: &[u8], node: &[u8]) -> Result<Result<Event, Cause>, Cause>
    ensures { result ≡ other_line is_third to.now node.now }
{
    if !is_third {
        return Err(Cause::Word);
    }
    let node = read_node(node)?;
    Ok(read_other(to, node))
}

/// R D CLASS FUNC INFO
fn read_call_line(setting: &Setting, arguments: &[&[u8]]) -> Result<Result<Event, Cause>, Cause>
    ensures { result ≡ call_line setting.now (map (λ f. f.now) arguments.now) }
{
    let [id, to, class, func, info] = arguments else {
        return Err(Cause::Word);
    };
    let class = read_class_in(setting, class)?;
    Ok(read_queue(id, to, class, func, info))
}

/// `queue`, and then R D CLASS FUNC INFO, or in version 3 D and what is no call.
#[tactic(auto, using(crate::proofs::Counts::no_pair))]
pub(super) fn read_queue_line(
    setting: &Setting,
    arguments: &[&[u8]],
) -> Result<Result<Event, Cause>, Cause>
    ensures { result ≡ queue_line setting.now (map (λ f. f.now) arguments.now) }
{
    if arguments.len() != 2 {
        return read_call_line(setting, arguments);
    }
    match arguments {
        [to, node] => read_other_line(setting.is_third, to, node),
        _ => Err(Cause::Word),
    }
}
