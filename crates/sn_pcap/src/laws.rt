//! Laws of the grammar, as contracts of functions that do nothing.

ghost use Rattle.std.specs.Prelude.{◌≡◌, ℕ, ◌≤◌, List, length, All};
ghost use Rattle.sn_pcap.specs.declared.fault.PcapFault.{PcapFault};
ghost use Rattle.sn_pcap.specs.Faults.{HasFault};
ghost use Rattle.sn_pcap.specs.Grammar.{PcapText};
ghost use Rattle.sn_pcap.specs.Written.{written};

/// Bytes are a capture of one list of records at most.
pub fn one_reading()
    ensures { (bytes : List ℕ) (xs ys : List (List ℕ))
        → PcapText bytes xs → PcapText bytes ys → xs ≡ ys }
{}

/// Bytes have one fault at most.
pub fn one_fault()
    ensures { (bytes : List ℕ) (a b : PcapFault)
        → HasFault bytes a → HasFault bytes b → a ≡ b }
{}

/// A capture has no fault.
pub fn no_fault()
    ensures { (bytes : List ℕ) (records : List (List ℕ)) (fault : PcapFault)
        → PcapText bytes records → HasFault bytes fault → ⊥ }
{}

/// What is written is a capture of what was written.
pub fn written_is_read()
    ensures { (payloads : List (List ℕ)) → All (λ payload. length payload ≤ 10240) payloads
        → PcapText (written payloads) payloads }
{}
