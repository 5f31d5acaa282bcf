//! The words that lines begin with.
ghost use Rattle.sn_scenario.specs.Kinds.{kind_of, setting_of};
ghost use Rattle.std.specs.Str.{bytes_eq};
ghost use Rattle.std.specs.Prelude.{◌≡◌};

/// A setting.
#[derive(Clone, Copy, Debug, PartialEq, Eq)]
pub enum Setting {
    /// How many packets there are.
    Pool,
    /// How many workers there are.
    Workers,
    /// How many breaths a round has.
    Breaths,
    /// How many rounds there are.
    Rounds,
    /// How often a worker is started again.
    Restarts,
    /// Where the journal is written.
    Journal,
}

/// What a line says.
#[derive(Clone, Copy, Debug, PartialEq, Eq)]
pub enum Kind {
    /// A setting.
    Setting(Setting),
    /// An interlink.
    Interlink,
    /// A configuration begins.
    Config,
    /// An app of the configuration.
    App,
    /// A link of the configuration.
    Link,
    /// The configuration ends.
    End,
    /// A stop of a worker.
    Stop,
}

/// Whether both are the same bytes.
pub(crate) fn is_same(a: &[u8], b: &[u8]) -> bool
    ensures { result ≡ bytes_eq a.now b.now }
{
    a == b
}

/// The setting of this word.
#[tactic(auto, unfolding(crate::specs::Kinds::setting_of))]
fn setting_of(word: &[u8]) -> Option<Setting>
    ensures { result ≡ setting_of word.now }
{
    if is_same(word, b"pool") {
        return Some(Setting::Pool);
    }
    if is_same(word, b"workers") {
        return Some(Setting::Workers);
    }
    if is_same(word, b"breaths") {
        return Some(Setting::Breaths);
    }
    if is_same(word, b"rounds") {
        return Some(Setting::Rounds);
    }
    if is_same(word, b"restarts") {
        return Some(Setting::Restarts);
    }
    if is_same(word, b"journal") {
        return Some(Setting::Journal);
    }
    None
}

/// What a line says that begins with this word.
#[tactic(auto, unfolding(crate::specs::Kinds::kind_of))]
pub(crate) fn kind_of(word: &[u8]) -> Option<Kind>
    ensures { result ≡ kind_of word.now }
{
    if let Some(setting) = setting_of(word) {
        return Some(Kind::Setting(setting));
    }
    if is_same(word, b"interlink") {
        return Some(Kind::Interlink);
    }
    if is_same(word, b"config") {
        return Some(Kind::Config);
    }
    if is_same(word, b"app") {
        return Some(Kind::App);
    }
    if is_same(word, b"link") {
        return Some(Kind::Link);
    }
    if is_same(word, b"end") {
        return Some(Kind::End);
    }
    if is_same(word, b"stop") {
        return Some(Kind::Stop);
    }
    None
}
