//! What is printed is read back, and a certificate is accepted or refused.

ghost use Rattle.std.specs.Prelude.{◌≡◌, ℕ};
ghost use Rattle.tree_definitions.specs.Automaton.{Automaton};
ghost use Rattle.tree_definitions.specs.Tree.{Symbol};
ghost use Rattle.ta_model.specs.Listing.{IsListed};
ghost use Rattle.std.specs.Prelude.{Ok};
ghost use Rattle.certificate_kinds.specs.Certificates.{Fits};
ghost use Rattle.down_entry_lines.specs.Fitting.{AreRanksNumbers};
ghost use Rattle.incl_certificate.specs.Checked.{FailsAt, Holds};
ghost use Rattle.incl_certificate.specs.Text.{Reads, certificate_text, judged_certificate, said_of};
ghost use Rattle.certificate_kinds.specs.declared.certificate.Certificate.{Certificate};
ghost use Rattle.incl_certificate.specs.declared.checking.Verdict.{Verdict};

/// The text of a certificate that fits is judged as that certificate, where the ranks of A's symbols
/// are numbers of 64 bits, as they are in memory.
pub fn printed_certificates_are_read_back()
    ensures { (A B : Automaton) (c : Certificate) → IsListed A → IsListed B → AreRanksNumbers A → Fits A B c
        → Reads A B (Ok c) (judged_certificate A B (certificate_text A B c)) }
{}

/// Of a certificate whose conditions all hold none fails, and it shows one thing.
pub fn a_certificate_is_accepted_or_refused()
    ensures never_both { (A B : Automaton) (c : Certificate) (verdict : Verdict) (condition place : ℕ) → Holds A B c verdict
        → FailsAt A B c condition place → ⊥ }
    ensures one_verdict { (A B : Automaton) (c : Certificate) (first second : Verdict) → Holds A B c first → Holds A B c second
        → first ≡ second }
{}

/// Certificates that fit and have one text say the same, and the same conditions hold and fail of both.
pub fn one_certificate_has_the_text()
    ensures said { (A B : Automaton) (c d : Certificate) → IsListed A → IsListed B → AreRanksNumbers A → Fits A B c → Fits A B d
        → certificate_text A B c ≡ certificate_text A B d → said_of c ≡ said_of d }
    ensures holds { (A B : Automaton) (c d : Certificate) (verdict : Verdict) → Fits A B c → Fits A B d → said_of c ≡ said_of d
        → Holds A B c verdict → Holds A B d verdict }
    ensures fails { (A B : Automaton) (c d : Certificate) (condition place : ℕ) → Fits A B c → Fits A B d → said_of c ≡ said_of d
        → FailsAt A B c condition place → FailsAt A B d condition place }
{}
