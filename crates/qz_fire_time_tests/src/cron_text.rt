//! Texts with what they say, and with their faults.
use qz_civil::{CronFields, DayField, NoMemory, WeekField};
use qz_cron_text::{CronError, parse, print};
use std::alloc::{AllocError, Global};
use std::process::Abort;

// Whether this is wrong with the text.
fn is_fault(text: &str, fault: CronError) -> bool {
    parse(text).err() == Some(fault)
}

fn check_faults(rt: &impl Abort, rows: &[(&str, CronError)]) {
    for &(text, fault) in rows.iter() {
        assert!(rt; is_fault(text, fault), "at {text}");
    }
}

/// Texts, and how many fields they have.
const OTHER_NUMBERS: &[(&str, u32)] = &[
    ("", 0),
    (" \t ", 0),
    ("0 0 0 1 * ", 5),
    ("1 2 3 4 5 6 7 8", 8),
    // What stands in the fields isn't looked at yet.
    ("x 60 0/0", 3),
];

#[test]
fn other_numbers_of_fields(rt: HostRuntime) {
    for &(text, found) in OTHER_NUMBERS.iter() {
        assert!(rt;
            is_fault(text, CronError::FieldCount { found }),
            "at {text}"
        );
    }
}

/// Texts, and the field and the place of an element of no form.
const NO_FORM: &[(&str, u8, u32)] = &[
    ("a 0 0 ? * 1", 1, 0),
    ("? 0 0 ? * 1", 1, 0),
    ("0 ,0 0 ? * 1", 2, 2),
    ("0 0, 0 ? * 1", 2, 4),
    ("\t0  0,x 0 ? * 1", 2, 6),
    ("0 0 12345 ? * 1", 3, 4),
    ("0 0 L ? * 1", 3, 4),
    ("0 0 1,*5,60 ? * 1", 3, 6),
    ("0 0 0 L-3W * ?", 4, 6),
    ("0 0 0 JAN * ?", 4, 6),
    ("0 0 0 1/2/3 * ?", 4, 6),
    ("0 0 0 1- * ?", 4, 6),
    ("0 0 0 1 JANUARY ?", 5, 8),
    ("0 0 0 1 1/MAR ?", 5, 8),
    ("0 0 0 ? * MO", 6, 10),
    ("0 0 0 ? * 2#", 6, 10),
    ("0 0 0 ? * 1 +2024", 7, 12),
    ("0 0 0 ? * 1 L", 7, 12),
];

#[test]
fn elements_of_no_form(rt: HostRuntime) {
    for &(text, field, at) in NO_FORM.iter() {
        assert!(rt;
            is_fault(text, CronError::BadToken { field, at }),
            "at {text}"
        );
    }
}

/// Texts, and the field and the value that is out of its range.
const OUT_OF_RANGE: &[(&str, u8, u16)] = &[
    ("60 0 0 ? * 1", 1, 60),
    ("0 5-99 0 ? * 1", 2, 99),
    ("0 99/0 0 ? * 1", 2, 99),
    ("0 0 24-25 ? * 1", 3, 24),
    ("0 0 0 0 * ?", 4, 0),
    ("0 0 0 32W * ?", 4, 32),
    ("0 0 0 L-31 * ?", 4, 31),
    ("0 0 0 1 JAN-13 ?", 5, 13),
    ("0 0 0 ? * 8L", 6, 8),
    ("0 0 0 ? * 9#9", 6, 9),
    ("0 0 0 ? * 2#6", 6, 6),
    ("0 0 0 ? * 2#0", 6, 0),
    ("0 0 0 ? * 1 1969", 7, 1969),
    ("0 0 0 ? * 1 2199-2200", 7, 2200),
    ("0 0 0 ? * 1 2030-2020", 7, 2030),
    ("0 0 0 ? * 1 2030-1960", 7, 2030),
];

#[test]
fn values_out_of_range(rt: HostRuntime) {
    for &(text, field, value) in OUT_OF_RANGE.iter() {
        assert!(rt;
            is_fault(text, CronError::OutOfRange { field, value }),
            "at {text}"
        );
    }
}

const WHOLE_FAULTS: &[(&str, CronError)] = &[
    ("0 0 0 1 * 1", CronError::BothDays),
    ("0 0 0 L * 2#1", CronError::BothDays),
    ("0 0 0 * * *", CronError::BothDays),
    ("0 0 0 ? * ?", CronError::NoDays),
    ("*/0 0 0 ? * 1", CronError::BadStep { field: 1 }),
    ("0 /60 0 ? * 1", CronError::BadStep { field: 2 }),
    ("0 0 1-5/0 ? * 1", CronError::BadStep { field: 3 }),
    ("0 0 0 ? * 1 1970/60", CronError::BadStep { field: 7 }),
    ("0 0 0 15W,20 * ?", CronError::NotAlone { field: 4 }),
    ("0 0 0 1,? * ?", CronError::NotAlone { field: 4 }),
    ("0 0 0 ? * 1,L", CronError::NotAlone { field: 6 }),
    ("0 0 0 ? * 2#1,2#2", CronError::NotAlone { field: 6 }),
];

#[test]
fn faults_of_whole_fields_and_texts(rt: HostRuntime) {
    check_faults(&rt, WHOLE_FAULTS);
}

const FIRST_FAULTS: &[(&str, CronError)] = &[
    (
        "0 60,x 0 ? * 1",
        CronError::OutOfRange {
            field: 2,
            value: 60,
        },
    ),
    ("0 x,60 0 ? * 1", CronError::BadToken { field: 2, at: 2 }),
    ("0 0 0 L,x * 1", CronError::BadToken { field: 4, at: 8 }),
    ("0 0 0 L,1/0 13 1", CronError::BadStep { field: 4 }),
    ("0 0 0 L,3 13 1", CronError::NotAlone { field: 4 }),
    (
        "0 0 0 1 * 1 1969",
        CronError::OutOfRange {
            field: 7,
            value: 1969,
        },
    ),
];

#[test]
fn of_several_faults_the_first(rt: HostRuntime) {
    check_faults(&rt, FIRST_FAULTS);
}

/// Faults with their numbers and texts.
const TOLD: [(CronError, u8, &str); 7] = [
    (
        CronError::FieldCount { found: 5 },
        1,
        "there are 5 fields, and not six or seven",
    ),
    (
        CronError::BadToken { field: 2, at: 4 },
        2,
        "field 2 has something else than a value at 4",
    ),
    (
        CronError::OutOfRange {
            field: 3,
            value: 24,
        },
        3,
        "24 is out of the range of field 3",
    ),
    (
        CronError::BothDays,
        4,
        "both the day of the month and the day of the week are given",
    ),
    (
        CronError::NoDays,
        5,
        "neither the day of the month nor the day of the week is given",
    ),
    (
        CronError::BadStep { field: 1 },
        6,
        "field 1 has a step that is not 1 to 59",
    ),
    (
        CronError::NotAlone { field: 6 },
        7,
        "field 6 has a list with a form that must stand alone",
    ),
];

// Whether the fault has this number and this text.
fn is_told(
    alloc: Global,
    &(fault, number, text): &(CronError, u8, &str),
) -> Result<bool, AllocError> {
    let told = fault.to_string(alloc)?;
    Ok(fault.number() == number && told.as_str() == text)
}

#[test]
fn faults_have_numbers_and_texts(rt: HostRuntime) -> Result<(), AllocError> {
    for row in TOLD.iter() {
        assert!(rt; is_told(rt.alloc(), row)?, "at {}", row.2);
    }
    Ok(())
}

// Whether what the text says is printed so, and what is printed says the same.
fn prints_as(alloc: Global, text: &str, canonical: &str) -> Result<bool, NoMemory> {
    let Ok(fields) = parse(text) else {
        return Ok(false);
    };
    let printed = print(alloc, &fields)?;
    Ok(printed.as_str() == canonical && parse(printed.as_str()) == Ok(fields))
}

/// Texts, and how they are printed.
const CANONICAL: &[(&str, &str)] = &[
    ("* * * * * ?", "* * * * * ?"),
    (
        "*/20 /30 5/9 1-5/2 3-4 ?",
        "0,20,40 0,30 5,14,23 1,3,5 3,4 ?",
    ),
    (
        " 00\t007  22-2 ? nov-FEB Mon-fri ",
        "0 7 0,1,2,22,23 ? 1,2,11,12 2,3,4,5,6",
    ),
    ("59-1/2 0 20-4/3 ? * L", "1,59 0 2,20,23 ? * 7"),
    ("0-59 30-29 0/1 ? 1-12 sun-7", "* * * ? * *"),
    ("0 0 0 l * ?", "0 0 0 L * ?"),
    ("0 0 0 L-0 * ?", "0 0 0 L * ?"),
    ("0 0 0 L-30 * ?", "0 0 0 L-30 * ?"),
    ("0 0 0 lw * ?", "0 0 0 LW * ?"),
    ("0 0 0 015w * ?", "0 0 0 15W * ?"),
    ("0 0 0 ? * fril", "0 0 0 ? * 6L"),
    ("0 0 0 ? * TUE#5", "0 0 0 ? * 3#5"),
    ("0 0 0 ? * 1 *", "0 0 0 ? * 1"),
    (
        "0 0 0 ? * 1 2196/2,1970-2012/20",
        "0 0 0 ? * 1 1970,1990,2010,2196,2198",
    ),
];

#[test]
fn texts_with_their_canonical_texts(rt: HostRuntime) -> Result<(), NoMemory> {
    for &(text, canonical) in CANONICAL.iter() {
        assert!(rt; prints_as(rt.alloc(), text, canonical)?, "{text}");
    }
    Ok(())
}

const EVERY_MORNING: CronFields = CronFields {
    seconds: 1,
    minutes: 1 << 30,
    hours: 1 << 8,
    day: DayField::Any,
    months: 0xfff,
    week: WeekField::Set(0b0111110),
    years: [u64::MAX, u64::MAX, u64::MAX, (1 << 38) - 1],
};

const SOME_YEARS: CronFields = CronFields {
    seconds: 1 | 1 << 59,
    minutes: 1,
    hours: 1 << 23,
    day: DayField::Nearest { day: 1 },
    months: 1,
    week: WeekField::Any,
    years: [1, 1, 0, 1 << 37],
};

#[test]
fn texts_with_their_fields(rt: HostRuntime) {
    assert!(rt; parse("0 30 8 ? * MON-FRI") == Ok(EVERY_MORNING));
    assert!(rt; parse("0,59 0 23 1W JAN ? 1970,2034,2199") == Ok(SOME_YEARS));
}
