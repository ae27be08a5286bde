//! Records of calendars and zones with as many items as they may have.
ghost use Rattle.std.specs.Prelude.{◌<◌, ◌≤◌};

use super::{Of, is_again, place_in};
use std::alloc::{AllocError, Global};
use std::test::*;

/// What stands before the kind of a calendar c in UTC.
const HEAD: &[u8; 10] = b"\x02\x00\x01\x63\x00\x00\x03\x55\x54\x43";

/// The day of a year of 12 months of 31 days, as `month * 100 + day`.
fn numbered_day(n: u16) -> u16
    requires { n < 372 }
{
    (n / 31 + 1) * 100 + n % 31 + 1
}

/// The date of years of 12 months of 28 days from 1970 on, as `year * 10000 + month * 100 + day`.
fn numbered_date(n: u32) -> u32
    requires { n < 5000 }
{
    (1970 + n / 336) * 10000 + (n % 336 / 28 + 1) * 100 + n % 28 + 1
}

/// A calendar without so many days of each year.
fn annual_of(alloc: Global, count: u16) -> Result<Vec<u8>, AllocError>
    requires { count ≤ 367 }
{
    let mut bytes = Vec::from_slice(alloc, HEAD.as_slice())?;
    bytes.push(0)?;
    bytes.extend_from_slice(&count.to_be_bytes())?;
    for n in 0..count {
        bytes.extend_from_slice(&numbered_day(n).to_be_bytes())?;
    }
    Ok(bytes)
}

/// A calendar without so many dates.
fn holiday_of(alloc: Global, count: u16) -> Result<Vec<u8>, AllocError>
    requires { count ≤ 4097 }
{
    let mut bytes = Vec::from_slice(alloc, HEAD.as_slice())?;
    bytes.push(1)?;
    bytes.extend_from_slice(&count.to_be_bytes())?;
    for n in 0..count {
        bytes.extend_from_slice(&numbered_date(u32::from(n)).to_be_bytes())?;
    }
    Ok(bytes)
}

/// A zone of so many stretches, each as short as may be.
fn zone_of(alloc: Global, count: u16) -> Result<Vec<u8>, AllocError> {
    let mut bytes = Vec::from_slice(alloc, b"\x02\x00\x01\x7a".as_slice())?;
    bytes.extend_from_slice(&count.to_be_bytes())?;
    for n in 0..count {
        bytes.extend_from_slice(&(u64::from(n) * 172800000).to_be_bytes())?;
        bytes.extend_from_slice(&u32::from(n % 2).to_be_bytes())?;
    }
    Ok(bytes)
}

fn is_full(alloc: Global, of: Of, record: Result<Vec<u8>, AllocError>) -> bool {
    match record {
        Ok(record) => is_again(alloc, of, &record),
        Err(AllocError) => false,
    }
}

#[test]
fn full_calendars_and_zones(rt: HostRuntime) {
    let alloc = rt.alloc();
    assert!(rt; is_full(alloc, Of::CalendarRow, annual_of(alloc, 0)));
    assert!(rt; is_full(alloc, Of::CalendarRow, annual_of(alloc, 366)));
    assert!(rt; is_full(alloc, Of::CalendarRow, holiday_of(alloc, 0)));
    assert!(rt; is_full(alloc, Of::CalendarRow, holiday_of(alloc, 4096)));
    assert!(rt; is_full(alloc, Of::ZoneRow, zone_of(alloc, 512)));
}

fn place_of(alloc: Global, of: Of, record: Result<Vec<u8>, AllocError>) -> Option<u32> {
    match record {
        Ok(record) => place_in(alloc, of, &record),
        Err(AllocError) => None,
    }
}

#[test]
fn lists_beyond_their_limits_are_refused(rt: HostRuntime) {
    let alloc = rt.alloc();
    assert!(rt; place_of(alloc, Of::CalendarRow, annual_of(alloc, 367)) == Some(11));
    assert!(rt; place_of(alloc, Of::CalendarRow, holiday_of(alloc, 4097)) == Some(11));
    assert!(rt; place_of(alloc, Of::ZoneRow, zone_of(alloc, 513)) == Some(4));
}
