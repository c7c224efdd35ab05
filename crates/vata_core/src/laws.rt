//! What the definitions of right answers come to.

ghost use Rattle.std.specs.Prelude.{◌≡◌, ◌≤◌, ◌+◌, ◌++◌, Bool, List, ℕ, Some, [], ◌∷◌, length};
ghost use Rattle.vata_outside.specs.Outside.{File, bytes_of};
ghost use Rattle.tree_definitions.specs.Automaton.{Automaton};
ghost use Rattle.certificate_kinds.specs.declared.certificate.Certificate.{Certificate};
ghost use Rattle.incl_certificate.specs.Checked.{Holds};
ghost use Rattle.vata_words.specs.declared.request.Dir.{Dir};
ghost use Rattle.vata_core.specs.Answer.{Answer, IsRight};
ghost use Rattle.vata_core.specs.Files.{AreSpelled, Told};
ghost use Rattle.vata_core.specs.Judgement.{IsCertificateOf, shown_status};
ghost use Rattle.vata_core.specs.Outcome.{Answers, AsksForNoCertificate};
ghost use Rattle.vata_core.specs.Request.{Binary, Request};

use crate::status::Status;
use crate::words::BinaryCommand;
use incl_certificate::Verdict;

/// A request other than for inclusion has one right answer: the answer is a function of the automata.
pub fn right_answers_are_equal()
    ensures { (request : Request) (As : List Automaton) (x y : Answer) → AsksForNoCertificate request
        → IsRight request As x → IsRight request As y → x ≡ y }
{}

/// What a run writes for inclusion is accepted by a check of the same two files and these bytes, unless
/// there are too many of them: they are the text of a certificate that meets all its conditions, and
/// what it shows is what the status says.
pub fn written_evidence_is_accepted()
    ensures { (dir : Dir) (sim : Bool) (budget : ℕ) (first second certificate : List ℕ) (fs gs : List File)
        (old new bytes : List ℕ) (status : Status)
        → Answers (Some fs) (Some old) (Some new) status (Binary (BinaryCommand.Incl dir sim budget) first second)
        → new ≡ old ++ bytes → length bytes ≤ 134217728
        → bytes_of first gs ≡ bytes_of first fs → bytes_of second gs ≡ bytes_of second fs
        → bytes_of certificate gs ≡ Some bytes
        → (A : Automaton) × (B : Automaton) × (c : Certificate) × (verdict : Verdict)
        × AreSpelled (Some gs) (first ∷ second ∷ []) (A ∷ B ∷ [])
        × Told (Some gs) certificate (IsCertificateOf A B c) × Holds A B c verdict
        × (status ≡ shown_status verdict) }
{}
