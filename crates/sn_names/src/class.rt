//! The classes of apps.
ghost use Rattle.sn_names.specs.Classes.{class_word};
ghost use Rattle.std.specs.Prelude.{IfNone, IfSome, IsTrue, ◌↔◌, ◌≡◌};

/// A class of apps, which says what an app does with its packets.
#[derive(Clone, Copy, Debug, PartialEq, Eq)]
pub enum Class {
    /// Makes packets and sends them on every output.
    Source,
    /// Takes packets from every input and frees them.
    Sink,
    /// Copies each packet to every output.
    Tee,
    /// Sends what comes from every input on one output.
    Join,
    /// Deals the packets of its inputs out to its outputs.
    Split,
    /// Sends the packets that it has received again and again.
    Repeater,
    /// Cuts packets to a length.
    Truncate,
    /// Passes every nth packet.
    Sample,
    /// Passes the packets with a given byte at a given place.
    ByteFilter,
    /// Sends the packets of a capture.
    PcapReader,
    /// Writes packets into a capture.
    PcapWriter,
    /// Takes packets from an interlink.
    Receiver,
    /// Puts packets into an interlink.
    Transmitter,
}

impl Class {
    /// All classes.
    const ALL: [Class; 13] = [
        Class::Source,
        Class::Sink,
        Class::Tee,
        Class::Join,
        Class::Split,
        Class::Repeater,
        Class::Truncate,
        Class::Sample,
        Class::ByteFilter,
        Class::PcapReader,
        Class::PcapWriter,
        Class::Receiver,
        Class::Transmitter,
    ];

    /// The class of this word. None exactly where it is the word of none.
    pub fn of(text: &[u8]) -> Option<Class>
        ensures found { IfSome result (λ class. text.now ≡ class_word class) }
        ensures none { IfNone result ((class : Class) → text.now ≡ class_word class → ⊥) }
    {
        for class in Class::ALL {
            if class.is_word(text) {
                return Some(class);
            }
        }
        None
    }

    /// Whether the text is this class's word.
    fn is_word(self, text: &[u8]) -> bool
        ensures { IsTrue result ↔ (text.now ≡ class_word self) }
    {
        self.word().as_bytes() == text
    }

    /// The word that the class is written as.
    pub fn word(self) -> &'static str
        ensures { result.now ≡ class_word self }
    {
        match self {
            Class::Source => "Source",
            Class::Sink => "Sink",
            Class::Tee => "Tee",
            Class::Join => "Join",
            Class::Split => "Split",
            Class::Repeater => "Repeater",
            Class::Truncate => "Truncate",
            Class::Sample => "Sample",
            Class::ByteFilter => "ByteFilter",
            Class::PcapReader => "PcapReader",
            Class::PcapWriter => "PcapWriter",
            Class::Receiver => "Receiver",
            Class::Transmitter => "Transmitter",
        }
    }
}
