//! The laws of registers and their texts: each is the contract of a function that does nothing.

ghost use Rattle.std.specs.Prelude.{◌↔◌, ◌≡◌, ◌<◌, ◌*◌, ◌^◌, length, slice_get, Some, List, [], ◌∷◌, ◌++◌, ℕ, true, false, codes, Ok, Err};
ghost use Rattle.form_terms.specs.Forms.{fault};
ghost use Rattle.form_terms.specs.FirstFaults.{IsFirstFault};
ghost use Rattle.register_terms.specs.Enrolment.{Enrolment, IsValid, capacity, message_of, names_of, serial_of};
ghost use Rattle.register_terms.specs.Rules.{empty_register, with_licensees, withdrawn_at};
ghost use Rattle.register_terms.specs.RegisterText.{IsTextOf, RegisterFault, in_state, register_text, register_of};
ghost use Rattle.register_terms.specs.RegisterFaults.{Begins, wrong_with};
ghost use Rattle.register_terms.specs.declared.fault.RegisterKind.TheVariants.{Ending, Header, BadM, BadStatus, BadName, NameTaken};

/// Small registers and small faults, worked out by the definitions.
pub fn worked_examples()
    ensures written { register_text (empty_register 4 2 1 0)
        ≡ codes "register 2\nm 4\nk 2\na 1\nb 0\n" }
    ensures enrolled { register_text
        (with_licensees (empty_register 4 2 1 0) (in_state true (codes "lic0")
        ∷ in_state false (codes "lic1") ∷ []))
        ≡ codes "register 2\nm 4\nk 2\na 1\nb 0\nactive lic0\nwithdrawn lic1\n" }
    ensures withdrawn { withdrawn_at (in_state true (codes "a") ∷ in_state true (codes "b")
        ∷ in_state true (codes "c") ∷ []) 1
        ≡ in_state true (codes "a") ∷ in_state false (codes "b") ∷ in_state true (codes "c") ∷ [] }
    ensures read { register_of (codes
        "register 2\nm 4\nk 2\na 1\nb 0\nactive lic0\nwithdrawn lic1\n")
        ≡ Ok (with_licensees (empty_register 4 2 1 0) (in_state true (codes "lic0")
        ∷ in_state false (codes "lic1") ∷ [])) }
    ensures older { register_of (codes "register 1\nm 4\nk 2\na 1\nb 0\nlic0\nlic1\n")
        ≡ Ok (with_licensees (empty_register 4 2 1 0) (in_state true (codes "lic0")
        ∷ in_state true (codes "lic1") ∷ [])) }
    ensures few_messages { capacity (empty_register 4 2 1 0) ≡ 256 }
    ensures many_messages { capacity (empty_register 8 3 1 0) ≡ 200000 }
    ensures bad_bits { register_of (codes "register 2\nm 9\nk 2\na 1\nb 0\n") ≡ Err (fault 2 BadM) }
    ensures no_state { register_of (codes "register 2\nm 4\nk 2\na 1\nb 0\nlic0\n")
        ≡ Err (fault 6 BadStatus) }
    ensures no_state_and_no_name { register_of (codes "register 2\nm 4\nk 2\na 1\nb 0\na b\n")
        ≡ Err (fault 6 BadStatus) }
    ensures no_state_and_cut { register_of (codes "register 2\nm 4\nk 2\na 1\nb 0\nlic0")
        ≡ Err (fault 6 Ending) }
    ensures state_in_an_older_one { register_of
        (codes "register 1\nm 4\nk 2\na 1\nb 0\nactive lic0\n")
        ≡ Err (fault 6 BadName) }
    ensures taken { register_of (codes
        "register 2\nm 4\nk 2\na 1\nb 0\nactive lic0\nwithdrawn lic0\n") ≡ Err (fault 7 NameTaken) }
    ensures cut_between { register_of (codes "register 2\nm 4\nk 2\n") ≡ Err (fault 4 Header) }
    ensures cut_within { register_of (codes "register 2\nm 4\nk") ≡ Err (fault 3 Ending) }
    ensures empty { register_of [] ≡ Err (fault 1 Header) }
{}

/// A text is read as a register exactly where it is a text of that register, and the register is valid.
///
/// So what is written is read again as itself, and no text is that of two registers.
pub fn texts_are_registers()
    ensures { (bytes : List ℕ) (e : Enrolment)
        → (register_of bytes ≡ Ok e) ↔ (IsValid e × IsTextOf e bytes) }
{}

/// A text has a fault exactly where its lines before that line begin a text of some valid register, the line does not go on
/// with one, and the kind is the first in the table that applies there. So a text has one first fault, and none where it is
/// a register's.
pub fn faults_are_first()
    ensures { (bytes : List ℕ) (f : RegisterFault)
        → (register_of bytes ≡ Err f) ↔ IsFirstFault Begins wrong_with bytes f }
{}

/// In a valid register the messages of different serials differ, and each message is below the number of messages.
pub fn messages_differ()
    ensures apart { (e : Enrolment) → IsValid e → (i j : ℕ) → i < length e.licensees
        → j < length e.licensees → message_of e i ≡ message_of e j → i ≡ j }
    ensures below { (e : Enrolment) → IsValid e → (serial : ℕ)
        → message_of e serial < 2 ^ (e.bits * e.dimension) }
{}

/// In a valid register a name has a serial exactly where the licensee of that serial has the name.
pub fn names_tell_serials()
    ensures { (e : Enrolment) → IsValid e → (name : List ℕ) (serial : ℕ)
        → (serial_of (names_of e.licensees) name ≡ Some serial)
        ↔ (slice_get (names_of e.licensees) serial ≡ Some name) }
{}
