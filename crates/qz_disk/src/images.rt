//! Which bytes a crash of a disk in memory may leave, by its record of calls.
ghost use Rattle.std.specs.Prelude.{◌≡◌, ◌+◌, ◌≤◌, ◌<◌, ℕ, List, length, take, true, false, OnOk, OnErr, IfOk, IfSome, IfNone, slice_get, slice_index_or, Some, [], vec_len};
ghost use Rattle.qz_disk.specs.Disk.{written};
ghost use Rattle.qz_disk.specs.Memory.{Standing, IsImageOf, is_reached, is_touched, standing_of};

use crate::Call;
use qz_civil::{List, NoMemory};
use std::alloc::Global;

// Puts bytes over what is there, and past the end.
pub(crate) fn overwrite(content: &mut Vec<u8>, at: usize, bytes: &[u8]) -> Result<(), NoMemory>
    requires { at ≤ vec_len content.old }
    ensures ok { OnOk result (content.new.items ≡ written at bytes.now content.old.items) }
    ensures err { OnErr result (content.new.items ≡ content.old.items) }
{
    let held = content.len() - at;
    if bytes.len() <= held {
        let range = &mut content[at..at + bytes.len()];
        range.copy_from_slice(bytes);
        return Ok(());
    }
    let (over, past) = bytes.split_at(held);
    content.extend_from_slice(past)?;
    let range = &mut content[at..at + held];
    range.copy_from_slice(over);
    Ok(())
}

fn was_touched(ranges: &[(u64, u64)], k: u64) -> bool
    ensures { result ≡ is_touched ranges.now k }
{
    ranges
        .iter()
        .any(|range| range.0 <= k && k - range.0 < range.1)
}

fn was_reached(ranges: &[(u64, u64)], len: u64) -> bool
    ensures { result ≡ is_reached ranges.now len }
{
    ranges
        .iter()
        .any(|range| len <= range.1 || len - range.1 <= range.0)
}

// Whether these bytes are an image, where the disk held others at the last sync and these ranges were written since.
fn is_image(synced: &[u8], ranges: &[(u64, u64)], bytes: &[u8]) -> bool
    ensures yes { result ≡ true → (s : Standing) → s.synced ≡ synced.now → s.ranges ≡ ranges.now → IsImageOf s bytes.now }
    ensures no { result ≡ false → (s : Standing) → s.synced ≡ synced.now → s.ranges ≡ ranges.now → IsImageOf s bytes.now → ⊥ }
{
    if bytes.len() < synced.len() {
        return false;
    }
    if bytes.len() > synced.len() && !was_reached(ranges, bytes.len() as u64) {
        return false;
    }
    for (k, byte) in synced.iter().enumerate() {
        if !was_touched(ranges, k as u64) && bytes[k] != *byte {
            return false;
        }
    }
    true
}

// How many calls there are up to and with the last sync or restart, and the ranges that were written since, last first.
fn unsynced(alloc: Global, calls: &[Call]) -> Result<(usize, Vec<(u64, u64)>), NoMemory>
    ensures count { IfOk result (λ r. r.0 ≤ length calls.now) }
    ensures synced { IfOk result (λ r. (first : List ℕ) → (standing_of first (take r.0 calls.now)).content ≡ (standing_of first calls.now).synced) }
    ensures ranges { IfOk result (λ r. (first : List ℕ) → r.1.items ≡ (standing_of first calls.now).ranges) }
{
    let mut count = 0;
    let mut ranges = Vec::new(alloc);
    for (k, call) in calls.iter().enumerate() {
        match call {
            Call::Len => {}
            Call::Read { .. } => {}
            Call::Write { at, bytes } => ranges.insert(0, (*at, bytes.len() as u64))?,
            Call::Sync => (count, ranges) = (k + 1, Vec::new(alloc)),
            Call::Restart { .. } => (count, ranges) = (k + 1, Vec::new(alloc)),
        }
    }
    Ok((count, ranges))
}

// The content to which these calls lead.
fn replay(alloc: Global, first: &[u8], calls: &[Call]) -> Result<Vec<u8>, NoMemory>
    ensures { IfOk result (λ content. content.items ≡ (standing_of first.now calls.now).content) }
{
    let mut content = Vec::from_slice(alloc, first)?;
    for call in calls {
        match call {
            Call::Len | Call::Read { .. } | Call::Sync => {}
            Call::Write { at, bytes } => {
                let start = (*at).min(content.len() as u64);
                overwrite(&mut content, start as usize, bytes.as_slice())?;
            }
            Call::Restart { image } => content = Vec::from_slice(alloc, image.as_slice())?,
        }
    }
    Ok(content)
}

// The place of the first listed image that is one, if any.
pub(crate) fn first_image(
    alloc: Global,
    first: &[u8],
    calls: &[Call],
    images: &[List<u8>],
) -> Result<Option<usize>, NoMemory>
    ensures found { IfOk result (λ place. IfSome place (λ k. (k < length images.now)
        × IsImageOf (standing_of first.now calls.now) (slice_index_or images.now k []))) }
    ensures passed { IfOk result (λ place. IfSome place (λ k. (j : ℕ) → j < k
        → IsImageOf (standing_of first.now calls.now) (slice_index_or images.now j []) → ⊥)) }
    ensures none { IfOk result (λ place. IfNone place ((j : ℕ) → j < length images.now
        → IsImageOf (standing_of first.now calls.now) (slice_index_or images.now j []) → ⊥)) }
{
    if images.is_empty() {
        return Ok(None);
    }
    let (count, ranges) = unsynced(alloc, calls)?;
    let synced = replay(alloc, first, &calls[..count])?;
    for (k, image) in images.iter().enumerate() {
        if is_image(&synced, &ranges, image.as_slice()) {
            return Ok(Some(k));
        }
    }
    Ok(None)
}
