//! Jobs, both ways.
ghost use Rattle.std.specs.Prelude.{◌≡◌, ℕ, ℤ, IfOk, ◌++◌, OnOk};
ghost use Rattle.qz_values.specs.Reading.{Gives};
ghost use Rattle.qz_codec.specs.Reading.{job_at};
ghost use Rattle.qz_codec.specs.Values.{IsJob};
ghost use Rattle.qz_codec.specs.Layout.{key, job, entry};

use crate::keys::{names_of, put_key};
use crate::records::{Recorded, Row};
use qz_civil::beside;
use qz_types::{JobRow, Key, PAYLOAD_LIMIT, Text};
use qz_values::{
    Fault, Version, bool_at, make_texts, name_of, put_bool, put_name, put_str, str_at,
};
use std::alloc::{AllocError, Global};

/// Memory for what a job has of texts.
fn make_job_texts(
    alloc: Global,
    names: (&str, &str),
    class: &str,
    payload: &str,
) -> Result<(Key, (Text, Text)), AllocError>
    ensures key { IfOk result (λ made. made.0 ≡ record { group = names.entry.0.now; name = names.entry.1.now }) }
    ensures texts { IfOk result (λ made. (made.1.0 ≡ class.now) × (made.1.1 ≡ payload.now)) }
{
    let key = Key::new(alloc, names.0, names.1)?;
    beside(key, make_texts(alloc, class, payload))
}

#[tactic(auto, unfolding(crate::specs::Reading::job_at))]
pub(crate) fn job_of(alloc: Global, bytes: &[u8]) -> Result<(JobRow, &[u8]), Fault>
    ensures { Gives (λ x. (x.0, x.1.now)) result (job_at bytes.now) }
{
    let (names, rest) = names_of(bytes)?;
    let (class, rest) = name_of(rest)?;
    let (durable, rest) = bool_at(rest)?;
    let (no_concurrent, rest) = bool_at(rest)?;
    let (requests_recovery, rest) = bool_at(rest)?;
    let (payload, rest) = str_at(rest, 0, PAYLOAD_LIMIT as u16)?;
    let (key, (class, payload)) = make_job_texts(alloc, names, class, payload)?;
    let job = JobRow {
        key,
        class,
        durable,
        no_concurrent,
        requests_recovery,
        payload,
    };
    Ok((job, rest))
}

#[tactic(auto, unfolding(crate::specs::Layout::job))]
pub(crate) fn put_job(out: &mut Vec<u8>, row: &JobRow) -> Result<(), AllocError>
    ensures bytes { OnOk result (out.new.items ≡ out.old.items ++ job row.now) }
    ensures valid { OnOk result (IsJob row.now) }
{
    put_key(out, &row.key)?;
    put_name(out, &row.class)?;
    put_bool(out, row.durable)?;
    put_bool(out, row.no_concurrent)?;
    put_bool(out, row.requests_recovery)?;
    put_str(out, row.payload.as_str())
}

impl Recorded for JobRow {
    ghost can_put = { λ row. Unit {0} };

    ghost fields = { λ version. job };

    ghost has_record = { λ version. IsJob };

    ghost fields_at = { λ version. job_at };

    ghost most = { 4707 };

    fn put_fields(&self, out: &mut Vec<u8>) -> Result<(), AllocError> {
        put_job(out, self)
    }

    fn fields_of(alloc: Global, _version: Version, bytes: &[u8]) -> Result<(JobRow, &[u8]), Fault> {
        job_of(alloc, bytes)
    }

    fn is_format() {}
}

impl Row for JobRow {}
