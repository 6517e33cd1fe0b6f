//! What a `start` line asks for.

ghost use Rattle.std.specs.Prelude.{◌≡◌, ◌<◌, ◌^◌, map, length};
ghost use Rattle.smp_script.specs.Lines.{AreShort};
ghost use Rattle.smp_script.specs.Commands.{bare_of, begins_of, posts_of, start_answered, start_bare, start_begin, start_nudge, start_of};
ghost use Rattle.smp_script.specs.Commands.{start_one, start_post, start_short, start_two, two_numbers};

use crate::decimal::{read_i32, read_u16, read_u32, read_u64};
use crate::directive::Directive;
use crate::field::{read_class, read_kind, read_mask, read_way};
use crate::line::is_word;
use smp_mask::Cause;
use smp_words::{Command, Work};

/// K DST CLASS FUNC INFO TRIES, as they are written.
#[derive(Clone, Copy)]
struct PostFields<'a> {
    k: &'a [u8],
    dst: &'a [u8],
    class: &'a [u8],
    func: &'a [u8],
    info: &'a [u8],
    tries: &'a [u8],
}

// `start CPU post`, and then these fields
#[tactic(auto, unfolding(crate::specs::Commands::start_post))]
fn read_post(cpu: &[u8], post: PostFields) -> Result<Directive, Cause>
    ensures { result ≡ start_post cpu.now post.entry.k.now post.entry.dst.now post.entry.class.now post.entry.func.now post.entry.info.now
        post.entry.tries.now }
{
    let class = read_class(post.class)?;
    let cpu = read_u32(cpu)?;
    let number = read_u32(post.k)?;
    let dst = read_u32(post.dst)?;
    let func = read_u16(post.func)?;
    let info = read_u64(post.info)?;
    let tries = read_u32(post.tries)?;
    let command = Command::Post(number, dst, class, func, info, tries);
    Ok(Directive::Start(cpu, command))
}

// The arguments of a post.
#[tactic(auto, using(crate::proofs::Reader::FieldCounts::not_six))]
fn read_posts(cpu: &[u8], arguments: &[&[u8]]) -> Result<Directive, Cause>
    ensures { result ≡ posts_of cpu.now (map (λ f. f.now) arguments.now) }
{
    let [k, dst, class, func, info, tries] = arguments else {
        return Err(Cause::Word);
    };
    let post = PostFields {
        k,
        dst,
        class,
        func,
        info,
        tries,
    };
    read_post(cpu, post)
}

/// KIND MASK ACTIVE FUNC ARG, as they are written.
#[derive(Clone, Copy)]
struct WorkFields<'a> {
    kind: &'a [u8],
    mask: &'a [u8],
    active: &'a [u8],
    func: &'a [u8],
    arg: &'a [u8],
}

// `start CPU begin`, and then these fields
#[tactic(auto, unfolding(crate::specs::Commands::start_begin))]
fn read_begin(limit: u32, cpu: &[u8], begin: WorkFields) -> Result<Directive, Cause>
    requires mask { length begin.mask.now < 2 ^ 32 }
    requires active { length begin.active.now < 2 ^ 32 }
    ensures { result ≡ start_begin limit cpu.now begin.entry.kind.now begin.entry.mask.now begin.entry.active.now begin.entry.func.now begin.entry.arg.now }
{
    let kind = read_kind(begin.kind)?;
    let cpu = read_u32(cpu)?;
    let work = Work {
        kind,
        mask: read_mask(limit, begin.mask)?,
        active: read_mask(limit, begin.active)?,
        func: read_u16(begin.func)?,
        arg: read_u64(begin.arg)?,
    };
    Ok(Directive::Start(cpu, Command::Begin(work)))
}

// The arguments of a begin.
#[tactic(auto, using(crate::proofs::Reader::FieldCounts::not_five))]
fn read_begins(limit: u32, cpu: &[u8], arguments: &[&[u8]]) -> Result<Directive, Cause>
    requires { AreShort (map (λ f. f.now) arguments.now) }
    ensures { result ≡ begins_of limit cpu.now (map (λ f. f.now) arguments.now) }
{
    let [kind, mask, active, func, arg] = arguments else {
        return Err(Cause::Word);
    };
    let begin = WorkFields {
        kind,
        mask,
        active,
        func,
        arg,
    };
    read_begin(limit, cpu, begin)
}

// The command of this name that has no arguments.
fn bare_command(name: &[u8]) -> Result<Command, Cause>
    ensures { result ≡ bare_of name.now }
{
    if is_word(name, b"handle") {
        return Ok(Command::Handle);
    }
    if is_word(name, b"gate") {
        return Ok(Command::Gate);
    }
    if is_word(name, b"ungate") {
        return Ok(Command::Ungate);
    }
    if is_word(name, b"finish") {
        return Ok(Command::Finish);
    }
    if is_word(name, b"poll") {
        return Ok(Command::Poll);
    }
    Err(Cause::Word)
}

// `start CPU NAME`
fn read_bare(cpu: &[u8], name: &[u8]) -> Result<Directive, Cause>
    ensures { result ≡ start_bare cpu.now name.now }
{
    let command = bare_command(name)?;
    let cpu = read_u32(cpu)?;
    Ok(Directive::Start(cpu, command))
}

// Two numbers.
fn read_two(first: &[u8], second: &[u8]) -> Result<(u32, u32), Cause>
    ensures { result ≡ two_numbers first.now second.now }
{
    let first = read_u32(first)?;
    let second = read_u32(second)?;
    Ok((first, second))
}

// `start CPU NAME RET`, where the argument may have a minus sign
fn read_answered(cpu: &[u8], name: &[u8], ret: &[u8]) -> Result<Directive, Cause>
    ensures { result ≡ start_answered cpu.now name.now ret.now }
{
    if is_word(name, b"advance") {
        let cpu = read_u32(cpu)?;
        let ret = read_i32(ret)?;
        return Ok(Directive::Start(cpu, Command::Advance(ret)));
    }
    if is_word(name, b"runone") {
        let cpu = read_u32(cpu)?;
        let ret = read_i32(ret)?;
        return Ok(Directive::Start(cpu, Command::RunOne(ret)));
    }
    Err(Cause::Word)
}

// `start CPU NAME ARGUMENT`
fn read_one(cpu: &[u8], name: &[u8], argument: &[u8]) -> Result<Directive, Cause>
    ensures { result ≡ start_one cpu.now name.now argument.now }
{
    if is_word(name, b"send") {
        let (cpu, dst) = read_two(cpu, argument)?;
        return Ok(Directive::Start(cpu, Command::Send(dst)));
    }
    if is_word(name, b"done") {
        let (cpu, k) = read_two(cpu, argument)?;
        return Ok(Directive::Start(cpu, Command::Done(k)));
    }
    if is_word(name, b"enter") {
        let (cpu, slot) = read_two(cpu, argument)?;
        return Ok(Directive::Start(cpu, Command::Enter(slot)));
    }
    if is_word(name, b"key") {
        let (cpu, k) = read_two(cpu, argument)?;
        return Ok(Directive::Start(cpu, Command::Key(k)));
    }
    if is_word(name, b"site") {
        let (cpu, i) = read_two(cpu, argument)?;
        return Ok(Directive::Start(cpu, Command::Site(i)));
    }
    read_answered(cpu, name, argument)
}

// `start CPU nudge K WAY`
fn read_nudge(cpu: &[u8], key: &[u8], way: &[u8]) -> Result<Directive, Cause>
    ensures { result ≡ start_nudge cpu.now key.now way.now }
{
    let up = read_way(way)?;
    let (cpu, key) = read_two(cpu, key)?;
    Ok(Directive::Start(cpu, Command::Nudge(key, up)))
}

// `start CPU NAME FIRST SECOND`
fn read_pair(cpu: &[u8], name: &[u8], first: &[u8], second: &[u8]) -> Result<Directive, Cause>
    ensures { result ≡ start_two cpu.now name.now first.now second.now }
{
    if is_word(name, b"nudge") {
        return read_nudge(cpu, first, second);
    }
    Err(Cause::Word)
}

// `start CPU NAME ARGUMENTS`, with two arguments at most
fn read_short(cpu: &[u8], name: &[u8], arguments: &[&[u8]]) -> Result<Directive, Cause>
    ensures { result ≡ start_short cpu.now name.now (map (λ f. f.now) arguments.now) }
{
    match arguments {
        [] => read_bare(cpu, name),
        [argument] => read_one(cpu, name, argument),
        [first, second] => read_pair(cpu, name, first, second),
        _ => Err(Cause::Word),
    }
}

/// What the fields after `start` ask for, where the CPUs of masks have to be below `limit`.
#[tactic(auto, using(crate::proofs::Reader::FieldCounts::not_two))]
pub fn read_start(limit: u32, fields: &[&[u8]]) -> Result<Directive, Cause>
    requires { AreShort (map (λ f. f.now) fields.now) }
    ensures { result ≡ start_of limit (map (λ f. f.now) fields.now) }
{
    let [cpu, name, arguments @ ..] = fields else {
        return Err(Cause::Word);
    };
    if is_word(name, b"post") {
        return read_posts(cpu, arguments);
    }
    if is_word(name, b"begin") {
        return read_begins(limit, cpu, arguments);
    }
    read_short(cpu, name, arguments)
}
