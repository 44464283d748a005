// What the words of a command line ask for. They are handed over one after the other, so that no list of them is held.
#![tactic(auto)]

ghost use Rattle.std.specs.Prelude.{◌≡◌};
ghost use Rattle.common.specs.Logic.{eqb, get_or};
ghost use Rattle.common.specs.Lists.{same_bytes};
ghost use Rattle.usage.specs.Usage.{after, as_operand, before_operands, begun, complete, from_columns, if_whole, in_command};
ghost use Rattle.usage.specs.Usage.{into_columns, named_task, one_more, option_of, read, start, topic, topic_named, with_options_ended, word_of};

pub mod status;

// A command's name.
#[derive(Clone, Copy)]
pub enum Command {
    Plan,
    Convert,
    Help,
}

// A word, by what it can mean.
#[derive(Clone, Copy)]
pub enum Word {
    Name(Command),
    // --help, -h
    HelpOption,
    // --version
    VersionOption,
    // --source-columns
    SourceColumns,
    // --target-columns
    TargetColumns,
    // --fail-if-lost
    FailIfLost,
    // --
    OptionsEnd,
    // -
    StandardInput,
    // another one that begins with -
    UnknownOption,
    Other,
}

// What is asked for. Of a conversion whether each of its options was given: the points of the source, and those of the target, are columns, and
// the target is made only if no number is lost.
#[derive(Clone, Copy)]
pub enum Task {
    Nothing,
    Plan,
    Convert {
        source: bool,
        target: bool,
        whole: bool,
    },
    Help,
    HelpOfPlan,
    HelpOfConvert,
    HelpOfHelp,
    Version,
    Wrong,
}

// What the words so far ask for: a task, how many operands it has, and whether its options have ended.
#[derive(Clone, Copy)]
pub struct Request {
    pub task: Task,
    pub operands: u8,
    pub options_ended: bool,
}

// How many operands a command has.
const PLAN_OPERANDS: u8 = 1;

const CONVERT_OPERANDS: u8 = 3;

// ---- one word

fn same(text: &[u8], word: &[u8]) -> bool
    ensures { result ≡ same_bytes text.now word.now }
{
    text == word
}

fn begins_with_dash(text: &[u8]) -> bool
    ensures { result ≡ eqb (get_or text.now 0 0) 0x2d }
{
    matches!(text, [b'-', ..])
}

// The tests stand one after the other: a `match` on byte strings parts at each byte, and its hundred paths were not proved.
#[tactic(auto, unfolding(crate::specs::Usage::option_of, crate::specs::Usage::is_text, crate::specs::Usage::begins_with_dash, common::specs::Ascii::ascii))]
fn option_of(text: &[u8]) -> Word
    ensures { result ≡ option_of text.now }
{
    if same(text, b"--help") || same(text, b"-h") {
        Word::HelpOption
    } else if same(text, b"--version") {
        Word::VersionOption
    } else if same(text, b"--source-columns") {
        Word::SourceColumns
    } else if same(text, b"--target-columns") {
        Word::TargetColumns
    } else if same(text, b"--fail-if-lost") {
        Word::FailIfLost
    } else if same(text, b"--") {
        Word::OptionsEnd
    } else if same(text, b"-") {
        Word::StandardInput
    } else if begins_with_dash(text) {
        Word::UnknownOption
    } else {
        Word::Other
    }
}

// What a word can mean.
#[tactic(auto, unfolding(crate::specs::Usage::word_of, crate::specs::Usage::is_text, common::specs::Ascii::ascii))]
pub fn word_of(text: &[u8]) -> Word
    ensures { result ≡ word_of text.now }
{
    if same(text, b"plan") {
        Word::Name(Command::Plan)
    } else if same(text, b"convert") {
        Word::Name(Command::Convert)
    } else if same(text, b"help") {
        Word::Name(Command::Help)
    } else {
        option_of(text)
    }
}

// ---- the first word, and the word after help

fn named_task(name: Command) -> Task
    ensures { result ≡ named_task name }
{
    match name {
        Command::Plan => Task::Plan,
        Command::Convert => Task::Convert {
            source: false,
            target: false,
            whole: false,
        },
        Command::Help => Task::Help,
    }
}

fn topic_named(name: Command) -> Task
    ensures { result ≡ topic_named name }
{
    match name {
        Command::Plan => Task::HelpOfPlan,
        Command::Convert => Task::HelpOfConvert,
        Command::Help => Task::HelpOfHelp,
    }
}

fn begun_by(word: Word) -> Task
    ensures { result ≡ begun word }
{
    match word {
        Word::Name(name) => named_task(name),
        Word::HelpOption => Task::Help,
        Word::VersionOption => Task::Version,
        _ => Task::Wrong,
    }
}

fn topic_of(word: Word) -> Task
    ensures { result ≡ topic word }
{
    match word {
        Word::Name(name) => topic_named(name),
        Word::HelpOption => Task::HelpOfHelp,
        _ => Task::Wrong,
    }
}

// ---- a word after plan or convert

// Where the options have ended.
fn as_operand(word: Word) -> Word
    ensures { result ≡ as_operand word }
{
    match word {
        Word::StandardInput => Word::StandardInput,
        _ => Word::Other,
    }
}

fn read(ended: bool, word: Word) -> Word
    ensures { result ≡ read ended word }
{
    if ended { as_operand(word) } else { word }
}

// The three options, which convert has alone; each sets a field of its own.
fn from_columns(task: Task) -> Task
    ensures { result ≡ from_columns task }
{
    match task {
        Task::Convert { target, whole, .. } => Task::Convert {
            source: true,
            target,
            whole,
        },
        _ => Task::Wrong,
    }
}

fn into_columns(task: Task) -> Task
    ensures { result ≡ into_columns task }
{
    match task {
        Task::Convert { source, whole, .. } => Task::Convert {
            source,
            target: true,
            whole,
        },
        _ => Task::Wrong,
    }
}

fn if_whole(task: Task) -> Task
    ensures { result ≡ if_whole task }
{
    match task {
        Task::Convert { source, target, .. } => Task::Convert {
            source,
            target,
            whole: true,
        },
        _ => Task::Wrong,
    }
}

impl Request {
    // A task with no operand yet, whose options may go on.
    fn asking(task: Task) -> Request
        ensures { result ≡ start task }
    {
        Request {
            task,
            operands: 0,
            options_ended: false,
        }
    }

    fn one_more(self, most: u8) -> Request
        ensures { result ≡ one_more most self }
    {
        if self.operands < most {
            Request {
                operands: self.operands + 1,
                ..self
            }
        } else {
            Request::asking(Task::Wrong)
        }
    }

    fn before_operands(self, next: Request) -> Request
        ensures { result ≡ before_operands self next }
    {
        if self.operands == 0 {
            next
        } else {
            Request::asking(Task::Wrong)
        }
    }

    fn with_options_ended(self) -> Request
        ensures { result ≡ with_options_ended self }
    {
        Request {
            options_ended: true,
            ..self
        }
    }

    // A word more, of a command that has so many operands at most.
    fn in_command(self, most: u8, help: Task, word: Word) -> Request
        ensures { result ≡ in_command most help self word }
    {
        match word {
            Word::HelpOption => self.before_operands(Request::asking(help)),
            Word::SourceColumns => self.before_operands(Request::asking(from_columns(self.task))),
            Word::TargetColumns => self.before_operands(Request::asking(into_columns(self.task))),
            Word::FailIfLost => self.before_operands(Request::asking(if_whole(self.task))),
            Word::OptionsEnd => self.before_operands(self.with_options_ended()),
            Word::StandardInput => self.before_operands(self.one_more(most)),
            Word::Name(_) | Word::Other => self.one_more(most),
            Word::VersionOption | Word::UnknownOption => Request::asking(Task::Wrong),
        }
    }
}

// ---- the words in turn

// Before the first word.
pub fn no_request() -> Request
    ensures { result ≡ start Task.Nothing }
{
    Request::asking(Task::Nothing)
}

// One word more.
pub fn next_request(request: Request, word: Word) -> Request
    ensures { result ≡ after request word }
{
    let operand = read(request.options_ended, word);
    match request.task {
        Task::Nothing => Request::asking(begun_by(word)),
        Task::Plan => request.in_command(PLAN_OPERANDS, Task::HelpOfPlan, operand),
        Task::Convert { .. } => request.in_command(CONVERT_OPERANDS, Task::HelpOfConvert, operand),
        Task::Help => Request::asking(topic_of(word)),
        _ => Request::asking(Task::Wrong),
    }
}

// What is asked for, where no word is left.
pub fn task_of(request: Request) -> Task
    ensures { result ≡ complete request }
{
    let is_complete = match request.task {
        Task::Nothing => false,
        Task::Plan => request.operands == PLAN_OPERANDS,
        Task::Convert { .. } => request.operands == CONVERT_OPERANDS,
        _ => true,
    };
    if is_complete {
        request.task
    } else {
        Task::Wrong
    }
}
