//! The fields of a record behind its letter, whose numbers may be out of their ranges, and the bytes behind them. `None` says that they
//! are not whole. They take memory for a name only once the name is there.
ghost use Rattle.std.specs.Prelude.{◌≡◌, option_map, None, IfOk, IsOk};
ghost use Rattle.et_binary.specs.Fronts.{header_front, class_front, method_front, alloc_front, update_front, enter_front, exit_front, unwind_front, flush_front, death_front, finish_front};

use crate::fields::{name_front, turn_front, u8_front, u32_front, u64_front};
use et_base::{Name, NoMemory, TraceLine};
use std::alloc::Global;

#[tactic(auto, unfolding(crate::specs::Fronts::header_front))]
pub fn header_front(bytes: &[u8]) -> Option<(TraceLine, &[u8])>
    ensures { option_map (λ x. (x.0, x.1.now)) result ≡ header_front bytes.now }
{
    let (interval, rest) = u64_front(bytes)?;
    let line = TraceLine::Header {
        version: 2,
        interval,
    };
    Some((line, rest))
}

#[tactic(auto, unfolding(crate::specs::Fronts::class_front))]
pub fn class_front(alloc: Global, bytes: &[u8]) -> Result<Option<(TraceLine, &[u8])>, NoMemory>
    ensures gives { IfOk result (λ found.
        option_map (λ x. (x.0, x.1.now)) found ≡ class_front bytes.now) }
    ensures early { class_front bytes.now ≡ None → IsOk result }
{
    let Some((number, rest)) = u32_front(bytes) else {
        return Ok(None);
    };
    let Some((name, rest)) = name_front(rest) else {
        return Ok(None);
    };
    let name = Name::of(alloc, name)?;
    Ok(Some((TraceLine::Class { number, name }, rest)))
}

#[tactic(auto, unfolding(crate::specs::Fronts::method_front))]
pub fn method_front(alloc: Global, bytes: &[u8]) -> Result<Option<(TraceLine, &[u8])>, NoMemory>
    ensures gives { IfOk result (λ found.
        option_map (λ x. (x.0, x.1.now)) found ≡ method_front bytes.now) }
    ensures early { method_front bytes.now ≡ None → IsOk result }
{
    let Some((number, rest)) = u32_front(bytes) else {
        return Ok(None);
    };
    let Some((class, rest)) = u32_front(rest) else {
        return Ok(None);
    };
    let Some((name, rest)) = name_front(rest) else {
        return Ok(None);
    };
    let Some((descriptor, rest)) = name_front(rest) else {
        return Ok(None);
    };
    let line = TraceLine::Method {
        number,
        class,
        name: Name::of(alloc, name)?,
        descriptor: Name::of(alloc, descriptor)?,
    };
    Ok(Some((line, rest)))
}

#[tactic(auto, unfolding(crate::specs::Fronts::alloc_front))]
pub fn alloc_front(bytes: &[u8]) -> Option<(TraceLine, &[u8])>
    ensures { option_map (λ x. (x.0, x.1.now)) result ≡ alloc_front bytes.now }
{
    let ((event, thread), rest) = turn_front(bytes)?;
    let (object, rest) = u32_front(rest)?;
    let (class, rest) = u32_front(rest)?;
    let (size, rest) = u64_front(rest)?;
    let (length, rest) = u32_front(rest)?;
    let line = TraceLine::Alloc {
        event,
        thread,
        object,
        class,
        size,
        length,
    };
    Some((line, rest))
}

#[tactic(auto, unfolding(crate::specs::Fronts::update_front))]
pub fn update_front(bytes: &[u8]) -> Option<(TraceLine, &[u8])>
    ensures { option_map (λ x. (x.0, x.1.now)) result ≡ update_front bytes.now }
{
    let ((event, thread), rest) = turn_front(bytes)?;
    let (object, rest) = u32_front(rest)?;
    let (slot, rest) = u32_front(rest)?;
    let (old, rest) = u32_front(rest)?;
    let (new, rest) = u32_front(rest)?;
    let line = TraceLine::Update {
        event,
        thread,
        object,
        slot,
        old,
        new,
    };
    Some((line, rest))
}

#[tactic(auto, unfolding(crate::specs::Fronts::enter_front))]
pub fn enter_front(bytes: &[u8]) -> Option<(TraceLine, &[u8])>
    ensures { option_map (λ x. (x.0, x.1.now)) result ≡ enter_front bytes.now }
{
    let ((event, thread), rest) = turn_front(bytes)?;
    let (method, rest) = u32_front(rest)?;
    let (receiver, rest) = u32_front(rest)?;
    let line = TraceLine::Enter {
        event,
        thread,
        method,
        receiver,
    };
    Some((line, rest))
}

#[tactic(auto, unfolding(crate::specs::Fronts::exit_front))]
pub fn exit_front(bytes: &[u8]) -> Option<(TraceLine, &[u8])>
    ensures { option_map (λ x. (x.0, x.1.now)) result ≡ exit_front bytes.now }
{
    let ((event, thread), rest) = turn_front(bytes)?;
    let (method, rest) = u32_front(rest)?;
    let line = TraceLine::Exit {
        event,
        thread,
        method,
    };
    Some((line, rest))
}

#[tactic(auto, unfolding(crate::specs::Fronts::unwind_front))]
pub fn unwind_front(bytes: &[u8]) -> Option<(TraceLine, &[u8])>
    ensures { option_map (λ x. (x.0, x.1.now)) result ≡ unwind_front bytes.now }
{
    let ((event, thread), rest) = turn_front(bytes)?;
    let (method, rest) = u32_front(rest)?;
    let (exception, rest) = u32_front(rest)?;
    let line = TraceLine::Unwind {
        event,
        thread,
        method,
        exception,
    };
    Some((line, rest))
}

#[tactic(auto, unfolding(crate::specs::Fronts::flush_front))]
pub fn flush_front(bytes: &[u8]) -> Option<(TraceLine, &[u8])>
    ensures { option_map (λ x. (x.0, x.1.now)) result ≡ flush_front bytes.now }
{
    let (event, rest) = u64_front(bytes)?;
    let (deaths, rest) = u32_front(rest)?;
    Some((TraceLine::Flush { event, deaths }, rest))
}

#[tactic(auto, unfolding(crate::specs::Fronts::death_front))]
pub fn death_front(bytes: &[u8]) -> Option<(TraceLine, &[u8])>
    ensures { option_map (λ x. (x.0, x.1.now)) result ≡ death_front bytes.now }
{
    let (object, rest) = u32_front(bytes)?;
    let (time, rest) = u64_front(rest)?;
    Some((TraceLine::Death { object, time }, rest))
}

#[tactic(auto, unfolding(crate::specs::Fronts::finish_front))]
pub fn finish_front(bytes: &[u8]) -> Option<(TraceLine, &[u8])>
    ensures { option_map (λ x. (x.0, x.1.now)) result ≡ finish_front bytes.now }
{
    let (event, rest) = u64_front(bytes)?;
    let (how, rest) = u8_front(rest)?;
    Some((TraceLine::Finish { event, how }, rest))
}
