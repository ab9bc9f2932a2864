//! Laws of EPD records and their texts, and of equality (`==`) between refusals.

ghost use Rattle.std.specs.Prelude.{◌≡◌, ◌≢◌, [], ℕ, List};
ghost use Rattle.pb_board.specs.Equality.{IsEquality};
ghost use Rattle.pb_epd.specs.declared.refusal.EpdError.{EpdError};
ghost use Rattle.pb_epd.specs.declared.refusal.PutError.{PutError};
ghost use Rattle.pb_epd.specs.Epd.{EpdRecord, IsEpd, EpdText, epd_form};
ghost use Rattle.pb_epd.specs.Token.{IsBadAt};
ghost use Rattle.pb_epd.specs.declared.refusal.EpdError.TheVariants as epd;
ghost use Rattle.pb_epd.specs.Refusal.{IsFirstDueEpd, IsFirstDuePut, IsFourWords};
ghost use Rattle.pb_epd.specs.declared.operation.Operand.{Operand};

use crate::refusal::{EpdError, PutError};

/// The form of a record is a text of it.
pub fn form_is_text()
    ensures { (e : EpdRecord) → IsEpd e → EpdText e (epd_form e) }
{}

/// No text has two records.
pub fn one_record()
    ensures { (e f : EpdRecord) (bytes : List ℕ) → IsEpd e → IsEpd f → EpdText e bytes
        → EpdText f bytes → e ≡ f }
{}

/// No line has two first bad tokens.
pub fn one_bad_token()
    ensures { (bytes : List ℕ) (a b : ℕ) → IsBadAt bytes a → IsBadAt bytes b → a ≡ b }
{}

/// No refusal but want of memory is due for a text of a record.
pub fn none_due()
    ensures { (e : EpdRecord) (bytes : List ℕ) (x : EpdError) → IsEpd e → EpdText e bytes
        → x ≢ epd.Memory → ¬ IsFirstDueEpd x bytes }
{}

/// No text is refused in two ways, want of memory aside, and no operation.
pub fn one_refusal()
    ensures text { (bytes : List ℕ) (x y : EpdError) → x ≢ epd.Memory → y ≢ epd.Memory
        → IsFirstDueEpd x bytes → IsFirstDueEpd y bytes → x ≡ y }
    ensures operation { (e : EpdRecord) (opcode : List ℕ) (operands : List Operand) (x y : PutError)
        → IsFirstDuePut x e opcode operands → IsFirstDuePut y e opcode operands → x ≡ y }
{}

/// A text of a record without operations is four words, for which no memory is wanted.
pub fn bare_is_four_words()
    ensures { (e : EpdRecord) (bytes : List ℕ) → EpdText e bytes → e.operations ≡ []
        → IsFourWords bytes }
{}

/// Refusals of operations, and of texts, are equal exactly where cause and place are the same.
pub fn equal_refusals()
    ensures operations { IsEquality ⟦<PutError as PartialEq>⟧.eq }
    ensures texts { IsEquality ⟦<EpdError as PartialEq>⟧.eq }
{}
