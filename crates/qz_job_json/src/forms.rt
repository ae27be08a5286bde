//! The table of the format: which members each object has.
ghost use Rattle.std.specs.Prelude.{◌≡◌};
ghost use Rattle.qz_job_json.specs.Forms.{members_of, client_own, node_own, step_own, untimed_own, line_shared, line_own, job_members, shared, own, kind_word_of, calendar_shared, calendar_own, calendar_word_of};
ghost use Rattle.qz_job_json.specs.Members.{is_among};

use crate::words::{ClientWord, NodeWord, StepWord, UntimedWord, Word};

/// The kinds of triggers, by the word of the member `kind`.
#[derive(Clone, Copy)]
pub(crate) enum KindWord {
    Simple,
    Cron,
    Interval,
    Daily,
}

impl KindWord {
    /// The kind that a text names.
    #[tactic(auto, unfolding(crate::specs::Forms::kind_word_of))]
    pub(crate) fn of(text: &str) -> Option<KindWord>
        ensures { result ≡ kind_word_of text.now }
    {
        match text {
            "simple" => Some(KindWord::Simple),
            "cron" => Some(KindWord::Cron),
            "interval" => Some(KindWord::Interval),
            "daily" => Some(KindWord::Daily),
            _ => None,
        }
    }

    /// Whether triggers of this kind have a member of this name, which not all triggers have.
    fn has_own(self, name: &str) -> bool
        ensures { result ≡ is_among (own self) name.now }
    {
        match self {
            KindWord::Simple => matches!(name, "interval" | "count"),
            KindWord::Cron => matches!(name, "cron" | "zone"),
            KindWord::Interval => matches!(
                name,
                "unit" | "every" | "zone" | "preserveHourOfDay" | "skipDayIfHourDoesNotExist"
            ),
            KindWord::Daily => {
                matches!(name, "unit" | "every" | "from" | "to" | "days" | "zone")
            }
        }
    }
}

/// Whether triggers of each kind have a member of this name.
fn is_shared(name: &str) -> bool
    ensures { result ≡ is_among shared name.now }
{
    matches!(
        name,
        "name"
            | "group"
            | "job"
            | "job_group"
            | "priority"
            | "calendar"
            | "misfire"
            | "start"
            | "end"
            | "kind"
    )
}

/// The kinds of calendars, by the word of the member `kind`.
#[derive(Clone, Copy)]
pub(crate) enum CalendarWord {
    Annual,
    Holiday,
    Weekly,
    Monthly,
    Daily,
    Cron,
}

impl CalendarWord {
    /// The kind that a text names.
    #[tactic(auto, unfolding(crate::specs::Forms::calendar_word_of))]
    pub(crate) fn of(text: &str) -> Option<CalendarWord>
        ensures { result ≡ calendar_word_of text.now }
    {
        match text {
            "annual" => Some(CalendarWord::Annual),
            "holiday" => Some(CalendarWord::Holiday),
            "weekly" => Some(CalendarWord::Weekly),
            "monthly" => Some(CalendarWord::Monthly),
            "daily" => Some(CalendarWord::Daily),
            "cron" => Some(CalendarWord::Cron),
            _ => None,
        }
    }

    /// Whether calendars of this kind have a member of this name, which not all calendars have.
    fn has_own(self, name: &str) -> bool
        ensures { result ≡ is_among (calendar_own self) name.now }
    {
        match self {
            CalendarWord::Annual | CalendarWord::Weekly | CalendarWord::Monthly => name == "days",
            CalendarWord::Holiday => name == "dates",
            CalendarWord::Daily => matches!(name, "from" | "to" | "inverted"),
            CalendarWord::Cron => name == "cron",
        }
    }
}

/// Whether calendars of each kind have a member of this name.
fn is_calendar_shared(name: &str) -> bool
    ensures { result ≡ is_among calendar_shared name.now }
{
    matches!(name, "name" | "base" | "zone" | "kind")
}

/// Whether the client's line has a member of this name, which not all lines have.
fn client_has(word: ClientWord, name: &str) -> bool
    ensures { result ≡ is_among (client_own word) name.now }
{
    match word {
        ClientWord::AddJob => matches!(name, "job" | "replace"),
        ClientWord::AddTrigger => matches!(name, "trigger" | "replace"),
        ClientWord::AddCalendar => matches!(name, "calendar" | "replace"),
        ClientWord::AddZone => matches!(name, "name" | "stretches" | "rule"),
        ClientWord::OfKey(_) => matches!(name, "name" | "group"),
        ClientWord::OfGroup(_) => name == "group",
        ClientWord::OfName(_) => name == "name",
        ClientWord::Threshold => name == "ms",
    }
}

/// Whether the node's line has a member of this name, which not all lines have.
fn node_has(word: NodeWord, name: &str) -> bool
    ensures { result ≡ is_among (node_own word) name.now }
{
    match word {
        NodeWord::Leave | NodeWord::Misfires => name == "node",
        NodeWord::Acquire => matches!(name, "node" | "no_later" | "window" | "max"),
        NodeWord::Release | NodeWord::Fire => matches!(name, "node" | "entry"),
        NodeWord::Complete => matches!(name, "node" | "entry" | "code"),
        NodeWord::Recover => matches!(name, "node" | "failed"),
    }
}

/// The same of the lines that are neither a client's nor a command of a node.
fn step_has(word: StepWord, name: &str) -> bool
    ensures { result ≡ is_among (step_own word) name.now }
{
    match word {
        StepWord::Join | StepWord::CheckIn => matches!(name, "node" | "interval"),
        StepWord::Forget => matches!(name, "node" | "failed"),
        StepWord::Stop => name == "node",
        StepWord::Restart => false,
    }
}

/// The same of the lines that take no reading of the clock.
fn untimed_has(word: UntimedWord, name: &str) -> bool
    ensures { result ≡ is_among (untimed_own word) name.now }
{
    match word {
        UntimedWord::ShowJob | UntimedWord::ShowTrigger => matches!(name, "name" | "group"),
        UntimedWord::ShowEntry => name == "entry",
        UntimedWord::ShowNext | UntimedWord::Checkpoint | UntimedWord::ShowRoom => false,
        UntimedWord::Resume => matches!(name, "node" | "epoch"),
    }
}

fn line_has(word: Word, name: &str) -> bool
    ensures { result ≡ is_among (line_own word) name.now }
{
    match word {
        Word::Client(word) => client_has(word, name),
        Word::Node(word) => node_has(word, name),
        Word::Of(word) => step_has(word, name),
        Word::Untimed(word) => untimed_has(word, name),
    }
}

/// Whether the line has a member of this name, as each line has, or each that takes a reading of the clock.
fn is_line_shared(word: Word, name: &str) -> bool
    ensures { result ≡ is_among (line_shared word) name.now }
{
    match word {
        Word::Client(_) | Word::Node(_) | Word::Of(_) => matches!(name, "do" | "at"),
        Word::Untimed(_) => name == "do",
    }
}

fn job_has(name: &str) -> bool
    ensures { result ≡ is_among job_members name.now }
{
    matches!(
        name,
        "name" | "group" | "class" | "durable" | "no_concurrent" | "requests_recovery" | "data"
    )
}

/// An object of the format: a line, or the job, the calendar or the trigger in one.
#[derive(Clone, Copy)]
pub(crate) enum Form {
    Line(Word),
    Job,
    CalendarOf(CalendarWord),
    TriggerOf(KindWord),
}

impl Form {
    /// Whether the object may have a member of this name.
    #[tactic(auto, using(crate::proofs::Names::among_either))]
    pub(crate) fn has(self, name: &str) -> bool
        ensures { result ≡ is_among (members_of self) name.now }
    {
        match self {
            Form::Line(word) => is_line_shared(word, name) || line_has(word, name),
            Form::Job => job_has(name),
            Form::CalendarOf(kind) => is_calendar_shared(name) || kind.has_own(name),
            Form::TriggerOf(kind) => is_shared(name) || kind.has_own(name),
        }
    }
}
