//! The words of lines.
ghost use Rattle.std.specs.Prelude.{◌≡◌};
ghost use Rattle.qz_job_json.specs.Words.{step_word_of, client_word_of, node_word_of, untimed_word_of, word_of, code_of};

use qz_types::Code;

/// The lines that name a job or a trigger by its key.
#[derive(Clone, Copy)]
pub(crate) enum KeyWord {
    DeleteJob,
    DeleteTrigger,
    PauseTrigger,
    ResumeTrigger,
    ResetTrigger,
    TriggerNow,
}

/// The lines that name a group.
#[derive(Clone, Copy)]
pub(crate) enum GroupWord {
    PauseGroup,
    ResumeGroup,
    PauseJobGroup,
    ResumeJobGroup,
}

/// The lines that name a calendar or a zone.
#[derive(Clone, Copy)]
pub(crate) enum NameWord {
    DeleteCalendar,
    DeleteZone,
}

/// What a client asks for.
#[derive(Clone, Copy)]
pub(crate) enum ClientWord {
    AddJob,
    AddTrigger,
    AddCalendar,
    AddZone,
    OfKey(KeyWord),
    OfGroup(GroupWord),
    OfName(NameWord),
    Threshold,
}

impl ClientWord {
    #[tactic(auto, unfolding(crate::specs::Words::client_word_of))]
    fn of(text: &str) -> Option<ClientWord>
        ensures { result ≡ client_word_of text.now }
    {
        match text {
            "add_job" => Some(ClientWord::AddJob),
            "add_trigger" => Some(ClientWord::AddTrigger),
            "add_calendar" => Some(ClientWord::AddCalendar),
            "add_zone" => Some(ClientWord::AddZone),
            "delete_job" => Some(ClientWord::OfKey(KeyWord::DeleteJob)),
            "delete_trigger" => Some(ClientWord::OfKey(KeyWord::DeleteTrigger)),
            "pause_trigger" => Some(ClientWord::OfKey(KeyWord::PauseTrigger)),
            "resume_trigger" => Some(ClientWord::OfKey(KeyWord::ResumeTrigger)),
            "reset_trigger" => Some(ClientWord::OfKey(KeyWord::ResetTrigger)),
            "trigger_now" => Some(ClientWord::OfKey(KeyWord::TriggerNow)),
            "pause_group" => Some(ClientWord::OfGroup(GroupWord::PauseGroup)),
            "resume_group" => Some(ClientWord::OfGroup(GroupWord::ResumeGroup)),
            "pause_job_group" => Some(ClientWord::OfGroup(GroupWord::PauseJobGroup)),
            "resume_job_group" => Some(ClientWord::OfGroup(GroupWord::ResumeJobGroup)),
            "delete_calendar" => Some(ClientWord::OfName(NameWord::DeleteCalendar)),
            "delete_zone" => Some(ClientWord::OfName(NameWord::DeleteZone)),
            "threshold" => Some(ClientWord::Threshold),
            _ => None,
        }
    }
}

/// What a node does under its epoch.
#[derive(Clone, Copy)]
pub(crate) enum NodeWord {
    Leave,
    Acquire,
    Release,
    Fire,
    Complete,
    Misfires,
    Recover,
}

impl NodeWord {
    #[tactic(auto, unfolding(crate::specs::Words::node_word_of))]
    fn of(text: &str) -> Option<NodeWord>
        ensures { result ≡ node_word_of text.now }
    {
        match text {
            "leave" => Some(NodeWord::Leave),
            "acquire" => Some(NodeWord::Acquire),
            "release" => Some(NodeWord::Release),
            "fire" => Some(NodeWord::Fire),
            "complete" => Some(NodeWord::Complete),
            "misfires" => Some(NodeWord::Misfires),
            "recover" => Some(NodeWord::Recover),
            _ => None,
        }
    }
}

/// What is no single transaction of the trigger store.
#[derive(Clone, Copy)]
pub(crate) enum StepWord {
    Join,
    CheckIn,
    Forget,
    Stop,
    Restart,
}

impl StepWord {
    #[tactic(auto, unfolding(crate::specs::Words::step_word_of))]
    fn of(text: &str) -> Option<StepWord>
        ensures { result ≡ step_word_of text.now }
    {
        match text {
            "join" => Some(StepWord::Join),
            "check_in" => Some(StepWord::CheckIn),
            "forget" => Some(StepWord::Forget),
            "stop" => Some(StepWord::Stop),
            "restart" => Some(StepWord::Restart),
            _ => None,
        }
    }
}

/// What takes no reading of the clock: questions about what is stored, a node that goes on under its epoch, and a checkpoint.
#[derive(Clone, Copy)]
pub(crate) enum UntimedWord {
    ShowJob,
    ShowTrigger,
    ShowEntry,
    ShowNext,
    Resume,
    Checkpoint,
    ShowRoom,
}

impl UntimedWord {
    #[tactic(auto, unfolding(crate::specs::Words::untimed_word_of))]
    fn of(text: &str) -> Option<UntimedWord>
        ensures { result ≡ untimed_word_of text.now }
    {
        match text {
            "show_job" => Some(UntimedWord::ShowJob),
            "show_trigger" => Some(UntimedWord::ShowTrigger),
            "show_entry" => Some(UntimedWord::ShowEntry),
            "show_next" => Some(UntimedWord::ShowNext),
            "resume" => Some(UntimedWord::Resume),
            "checkpoint" => Some(UntimedWord::Checkpoint),
            "show_room" => Some(UntimedWord::ShowRoom),
            _ => None,
        }
    }
}

/// The lines, by the word of their member `do`.
#[derive(Clone, Copy)]
pub(crate) enum Word {
    Client(ClientWord),
    Node(NodeWord),
    Of(StepWord),
    Untimed(UntimedWord),
}

impl Word {
    /// The line that a text names.
    pub(crate) fn of(text: &str) -> Option<Word>
        ensures { result ≡ word_of text.now }
    {
        if let Some(word) = ClientWord::of(text) {
            return Some(Word::Client(word));
        }
        if let Some(word) = NodeWord::of(text) {
            return Some(Word::Node(word));
        }
        match StepWord::of(text) {
            Some(word) => Some(Word::Of(word)),
            None => UntimedWord::of(text).map(Word::Untimed),
        }
    }
}

/// The code that a text names.
#[tactic(auto, unfolding(crate::specs::Words::code_of))]
pub(crate) fn code_of(text: &str) -> Option<Code>
    ensures { result ≡ code_of text.now }
{
    match text {
        "NOOP" => Some(Code::Noop),
        "RE_EXECUTE_JOB" => Some(Code::ReExecuteJob),
        "SET_TRIGGER_COMPLETE" => Some(Code::SetTriggerComplete),
        "DELETE_TRIGGER" => Some(Code::DeleteTrigger),
        "SET_ALL_JOB_TRIGGERS_COMPLETE" => Some(Code::SetAllJobTriggersComplete),
        "SET_TRIGGER_ERROR" => Some(Code::SetTriggerError),
        "SET_ALL_JOB_TRIGGERS_ERROR" => Some(Code::SetAllJobTriggersError),
        _ => None,
    }
}
