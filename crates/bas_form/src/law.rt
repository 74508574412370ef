//! The laws of the forms: the reader of each takes the longest, and no tree but the one that it
//! gives ends there.

ghost use Rattle.std.specs.Prelude.{ℕ};
ghost use Rattle.bas_form.specs.Laws.{ReadForm, nothing, TerminalLaw, ThenLaw, OptionalLaw, RepeatedLaw, OrLaw, DispatchedLaw, BuiltLaw, NotAheadLaw, PerhapsLaw, ChainLaw, BetweenLaw, WorkedGrammar};

/// Any form that has a reader which takes the longest of it. A law of such forms holds of all.
pub trait ReadableForm {
    /// What the form's reader gives.
    type Tree;

    ghost form: { (len : ℕ) → ReadForm Self.Tree len };
}

/// Such forms of one tree, a form for each key.
pub trait ReadableForms {
    /// What chooses the form.
    type Key;

    /// What each form's reader gives.
    type Tree;

    ghost forms: { (len : ℕ) → Self.Key → ReadForm Self.Tree len };
}

/// The form in which nothing is written: it never begins.
pub struct Nothing;

impl ReadableForm for Nothing {
    type Tree = ();

    ghost form = { nothing };
}

/// One element.
pub fn terminal_law<A>()
    ensures { TerminalLaw A }
{}

/// One form and after it another, which never begins where the first may go on.
pub fn then_law<F: ReadableForm, G: ReadableForm>()
    ensures { (len : ℕ) → ThenLaw (F.form len) (G.form len) }
{}

/// A form or nothing.
pub fn optional_law<F: ReadableForm>()
    ensures { (len : ℕ) → OptionalLaw (F.form len) }
{}

/// A form any number of times, which never begins where it may go on.
pub fn repeated_law<F: ReadableForm>()
    ensures { (len : ℕ) → RepeatedLaw (F.form len) }
{}

/// One of two forms that never begin at one place.
pub fn or_law<F: ReadableForm, G: ReadableForm<Tree = F::Tree>>()
    ensures { (len : ℕ) → OrLaw (F.form len) (G.form len) }
{}

/// The form that an element chooses.
pub fn dispatched_law<F: ReadableForms>()
    ensures { (len : ℕ) → DispatchedLaw (F.forms len) }
{}

/// Nothing, where an element does not follow.
pub fn not_ahead_law<A>()
    ensures { NotAheadLaw A }
{}

/// A tree made of the parts.
pub fn built_law<F: ReadableForm, B>()
    ensures { (len : ℕ) → BuiltLaw (F.form len) B }
{}

/// A form and perhaps another, which never begins where the first may go on.
pub fn perhaps_law<F: ReadableForm, G: ReadableForm>()
    ensures { (len : ℕ) → PerhapsLaw (F.form len) (G.form len) }
{}

/// Items with operators between them, where no item may go on at an operator.
pub fn chain_law<F: ReadableForm, O>()
    ensures { (len : ℕ) → ChainLaw (F.form len) O }
{}

/// A form between two elements, which may not go on at the second.
pub fn between_law<F: ReadableForm, O, C>()
    ensures { (len : ℕ) → BetweenLaw (F.form len) O C }
{}

/// Digits between commas, perhaps in parentheses, read by the forms' readers.
pub fn worked_grammar()
    ensures { WorkedGrammar }
{}
