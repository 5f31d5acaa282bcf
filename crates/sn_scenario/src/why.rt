//! Why a line of a scenario is faulty.
ghost use Rattle.sn_scenario.specs.WhyWords.{why_word};
ghost use Rattle.std.specs.Prelude.{◌≡◌};

/// The check that a line fails.
#[derive(Clone, Copy, Debug, PartialEq, Eq)]
pub enum Why {
    /// The line has more than 1,024 bytes.
    Long,
    /// A byte isn't a tab or 32 to 126.
    Byte,
    /// The first line that isn't skipped isn't `scenario 1`.
    Header,
    /// The first token isn't a word that begins a line.
    Word,
    /// A line of a configuration stands outside of one, or another line inside.
    Place,
    /// A setting stands after the first interlink, configuration or stop.
    Late,
    /// Rounds times breaths is over 100,000.
    Product,
    /// There are too many or too few tokens.
    Shape,
    /// A number isn't a decimal within its bounds.
    Number,
    /// It stands there already.
    Twice,
    /// A file's name isn't 1 to 255 bytes from 33 to 126.
    FileBad,
    /// A name isn't 1 to 64 letters, digits and `_`.
    Name,
    /// A worker isn't a decimal below the number of workers.
    Worker,
    /// The round isn't greater than that of the worker's configuration before.
    Order,
    /// There are too many of these.
    TooMany,
    /// There is no such class.
    Class,
    /// The class doesn't take this argument.
    Arg,
    /// The interlink's end isn't this worker's, or is another app's.
    End,
    /// The file has another use.
    FileUse,
    /// The text spells no link.
    Link,
    /// An app of the link isn't declared before.
    NoApp,
    /// Another link has this port.
    PortTaken,
    /// The text ends inside a configuration.
    NoEnd,
}

impl Why {
    /// The word that is printed for it.
    pub fn word(self) -> &'static str
        ensures { result.now ≡ why_word self }
    {
        match self {
            Why::Long => "long",
            Why::Byte => "byte",
            Why::Header => "header",
            Why::Word => "word",
            Why::Place => "place",
            Why::Late => "late",
            Why::Product => "product",
            Why::Shape => "shape",
            Why::Number => "number",
            Why::Twice => "twice",
            Why::FileBad => "file",
            Why::Name => "name",
            Why::Worker => "worker",
            Why::Order => "order",
            Why::TooMany => "too-many",
            Why::Class => "class",
            Why::Arg => "arg",
            Why::End => "end",
            Why::FileUse => "file-use",
            Why::Link => "link",
            Why::NoApp => "no-app",
            Why::PortTaken => "port-taken",
            Why::NoEnd => "no-end",
        }
    }
}
