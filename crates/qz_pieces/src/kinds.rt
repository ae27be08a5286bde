//! Kinds of rows.
ghost use Rattle.std.specs.Prelude.{◌≡◌};
ghost use Rattle.qz_pieces.specs.Kinds.{kind_byte, kind_of};

/// A kind of rows. In a snapshot the rows stand in the order of the kinds, and of each kind in the order of its ids.
#[derive(Clone, Copy, PartialEq, Eq, Debug)]
pub enum RowKind {
    Job,
    Trigger,
    Calendar,
    Zone,
    /// A paused group of triggers.
    Group,
    Member,
    Fired,
    /// A paused group of jobs.
    JobGroup,
}

/// The byte of a kind.
pub(crate) fn kind_byte(kind: RowKind) -> u8
    ensures { result ≡ kind_byte kind }
{
    match kind {
        RowKind::Job => 0,
        RowKind::Trigger => 1,
        RowKind::Calendar => 2,
        RowKind::Zone => 3,
        RowKind::Group => 4,
        RowKind::Member => 5,
        RowKind::Fired => 6,
        RowKind::JobGroup => 7,
    }
}

/// The kind of a byte, if it is of one.
pub(crate) fn kind_of(byte: u8) -> Option<RowKind>
    ensures { result ≡ kind_of byte }
{
    match byte {
        0 => Some(RowKind::Job),
        1 => Some(RowKind::Trigger),
        2 => Some(RowKind::Calendar),
        3 => Some(RowKind::Zone),
        4 => Some(RowKind::Group),
        5 => Some(RowKind::Member),
        6 => Some(RowKind::Fired),
        7 => Some(RowKind::JobGroup),
        _ => None,
    }
}
