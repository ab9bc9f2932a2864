//! Laws of ledgers, and of equality (`==`) between rules and between answers. Each is the contract
//! of a function that does nothing.

ghost use Rattle.std.specs.Prelude.{◌≡◌, ◌↔◌, ◌∷◌, ◌≢◌, ◌≤◌, ◌++◌, ◌⊎◌, ◌<◌, [], ℕ, Contains, List};
ghost use Rattle.std.specs.Prelude.{All, codes, Err, Ok, Some, length, slice_get, take};
ghost use Rattle.pb_board.specs.Equality.{IsEquality};
ghost use Rattle.std.specs.List.{flat_map};
ghost use Rattle.pb_board.specs.LineEnd.{with_end};
ghost use Rattle.pb_poly.specs.Book.{BookBytes};
ghost use Rattle.pb_poly.specs.Table.{IsTable};
ghost use Rattle.pb_poly.specs.declared.book.Entry.{Entry};
ghost use Rattle.pb_games.specs.Submissions.{Submits, Submission};
ghost use Rattle.pb_games.specs.Worked.{worked_line, worked_submission};
ghost use Rattle.pb_games.specs.declared.refusal.Refusal.TheVariants.{Conflict, Full, Memory};
ghost use Rattle.pb_games.specs.declared.refusal.Refusal.{Refusal};
ghost use Rattle.pb_accepted.specs.declared.ledger.TheConstants.{MAX_CAP};
ghost use Rattle.pb_accepted.specs.declared.rules.TheConstants.{MAX_LEAST};
ghost use Rattle.pb_accepted.specs.Accepting.{OneGame, Answer, Step, Run, Taken};
ghost use Rattle.pb_accepted.specs.Counting.{IsBook, counted, count};
ghost use Rattle.pb_accepted.specs.Replying.{HaveOwnIds};
ghost use Rattle.pb_accepted.specs.Accepting.{NoRepeats, SameMembers};
ghost use Rattle.pb_accepted.specs.Replying.{Arrives, AreNumbered, IsNewId, IsNumber, Replies};
ghost use Rattle.pb_accepted.specs.Replying.{Reply, most_games, ok, refused};
ghost use Rattle.pb_accepted.specs.Worked.{worked_basis, worked_book, worked_bytes};
ghost use Rattle.pb_accepted.specs.Accepting.{named, replies as replies_to, reply, reply_texts};
ghost use Rattle.pb_accepted.specs.Refusals.{IsRefused};
ghost use Rattle.pb_accepted.specs.declared.ply_points.PlyPoints.{PlyPoints};
ghost use Rattle.pb_accepted.specs.Rules.{Basis};

use crate::ledger::Accepted;
use crate::rules::Rules;

/// States that the limits of ledgers and of rules are the numbers of the definitions.
pub fn limits()
    ensures cap { MAX_CAP ≡ most_games }
    ensures least { MAX_LEAST ≡ 1000000 }
{}

/// States what one line is answered and does, where no id stands twice: it has one answer, want of
/// memory aside; what is held gets its number, whatever room there is; and a line that is refused
/// changes nothing. The reply names an id that is short, as `Reply::new` asks.
pub fn one_line()
    ensures one { (cap : ℕ) (A : List Submission) (line : List ℕ) (q r : Answer)
        (B C : List Submission) → HaveOwnIds A → Step cap A line q B → Step cap A line r C
        → q ≢ Err Memory → r ≢ Err Memory → (q ≡ r) × (B ≡ C) }
    ensures held { (cap : ℕ) (A : List Submission) (line : List ℕ) (s : Submission) (n : ℕ)
        (r : Answer) (B : List Submission) → HaveOwnIds A → Submits line s → IsNumber A n s
        → Step cap A line r B → r ≡ Ok n }
    ensures refused { (cap : ℕ) (A : List Submission) (line : List ℕ) (e : Refusal)
        (B : List Submission) → Step cap A line (Err e) B → B ≡ A }
    ensures named { (cap : ℕ) (A : List Submission) (line : List ℕ) (r : Answer)
        (B : List Submission) → Step cap A line r B → length (named line r) ≤ 64 }
{}

/// States that lines with their answers fix what is held, whatever room there was, and that two
/// runs in a row are one.
pub fn runs()
    ensures one { (cap most : ℕ) (A : List Submission) (L : List (List ℕ)) (R : List Answer)
        (B C : List Submission) → Run cap A L R B → Run most A L R C → B ≡ C }
    ensures join { (cap : ℕ) (A B C : List Submission) (K L : List (List ℕ)) (Q R : List Answer)
        → Run cap A K Q B → Run cap B L R C → Run cap A (K ++ L) (Q ++ R) C }
{}

/// States that lines are replied to as they are answered, each by the line of an answer, or by the
/// one reason why a line that submits no legal game is refused by itself; and that the replies
/// number what is held.
pub fn replies()
    ensures run { (cap : ℕ) (A : List Submission) (L : List (List ℕ)) (R : List Answer)
        (B : List Submission) → Run cap A L R B → Replies cap A L (reply_texts L R) B }
    ensures answers { (cap : ℕ) (A : List Submission) (line r : List ℕ) (B : List Submission)
        → Reply cap A line r B → ((a : Answer) × Step cap A line a B × (r ≡ reply line a))
        ⊎ ((why : List ℕ) × IsRefused line why × (r ≡ refused why) × (B ≡ A)) }
    ensures reason { (line v w : List ℕ) → IsRefused line v → IsRefused line w → v ≡ w }
    ensures lawful { (line why : List ℕ) (s : Submission) → Submits line s → ¬ IsRefused line why }
    ensures lines { (L : List (List ℕ)) (R : List Answer)
        → replies_to L R ≡ flat_map with_end (reply_texts L R) }
    ensures numbers { (L : List (List ℕ)) (R : List Answer) (A : List Submission)
        → Run most_games [] L R A → AreNumbered ok L (reply_texts L R) A }
{}

/// States that what is held has the numbers that were answered, and each submission its own,
/// whenever it comes again.
pub fn numbers()
    ensures { (cap : ℕ) (L : List (List ℕ)) (R : List Answer) (A : List Submission)
        → Run cap [] L R A → AreNumbered (λ s n. Ok n) L R A }
{}

/// States that each submission has one effect, where no id has two games: what is held is the list
/// of the distinct submissions taken, none is a conflict, and each lawful one gets a number, unless
/// its id is new and there is no room, or room and no memory.
pub fn one_game()
    ensures taken { (cap : ℕ) (L : List (List ℕ)) (R : List Answer) (A : List Submission)
        → OneGame L → Run cap [] L R A → Taken [] L R A }
    ensures no_conflict { (cap : ℕ) (L : List (List ℕ)) (R : List Answer) (A : List Submission)
        → OneGame L → Run cap [] L R A → All (λ r. (n : ℕ) → r ≢ Err (Conflict n)) R }
    ensures arrivals { (cap : ℕ) (L : List (List ℕ)) (R : List Answer) (A : List Submission)
        → OneGame L → Run cap [] L R A
        → (i : ℕ) (s : Submission) (r : Answer) (B : List Submission) → Arrives L i s
        → slice_get R i ≡ Some r → Run cap [] (take i L) (take i R) B
        → ((n : ℕ) × (r ≡ Ok n)) ⊎ (((r ≡ Err Full) × IsNewId s.0 B × (length B ≡ cap))
        ⊎ ((r ≡ Err Memory) × IsNewId s.0 B × (length B < cap))) }
{}

/// States that the distinct submissions are one list, without repeats.
pub fn distinct()
    ensures one { (A : List Submission) (L : List (List ℕ)) (R : List Answer)
        (B C : List Submission) → Taken A L R B → Taken A L R C → B ≡ C }
    ensures no_repeats { (L : List (List ℕ)) (R : List Answer) (S : List Submission)
        → Taken [] L R S → NoRepeats S }
{}

/// States that plies have one book, and that the book of games depends on the members alone.
pub fn books()
    ensures one { (G : List PlyPoints) (least : ℕ) (E F : List Entry) → IsBook G least E
        → IsBook G least F → E ≡ F }
    ensures counts { (T : Basis) (S U : List Submission) → NoRepeats S → NoRepeats U
        → SameMembers S U → (k c : ℕ) → count (counted T S) k c ≡ count (counted T U) k c }
    ensures members { (T : Basis) (S U : List Submission) → NoRepeats S → NoRepeats U
        → SameMembers S U → (least : ℕ) (E : List Entry) → IsBook (counted T S) least E
        → IsBook (counted T U) least E }
{}

/// States that rules and answers are equal (`==`) exactly where they are one value.
pub fn equal_values()
    ensures rules { IsEquality ⟦<Rules as PartialEq>⟧.eq }
    ensures accepted { IsEquality ⟦<Accepted as PartialEq>⟧.eq }
{}

/// States what the laws above ask of lines and of lists.
pub fn premises()
    ensures one_game { (L : List (List ℕ)) → ((b c : List ℕ) (s t : Submission) → Contains L b
        → Contains L c → Submits b s → Submits c t → s.0 ≡ t.0 → s ≡ t) → OneGame L }
    ensures members { (S U : List Submission)
        → ((s : Submission) → Contains S s ↔ Contains U s) → SameMembers S U }
{}

/// States what a new ledger replies to Fool's mate, and that its book has the two moves of Black.
pub fn worked()
    ensures reply { Replies most_games [] (worked_line ∷ []) (codes "ok g1 1" ∷ [])
        (worked_submission ∷ []) }
    ensures table { IsTable worked_basis.randoms }
    ensures book { IsBook (counted worked_basis (worked_submission ∷ [])) 1 worked_book }
    ensures bytes { BookBytes worked_book worked_bytes }
{}
