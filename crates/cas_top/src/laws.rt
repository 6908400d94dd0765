//! Laws of the top call's answers. They have no effect: what each ensures is the law.

ghost use Rattle.cas_top.specs.Exclusion.{CausesExclude};

/// If a shelf reports its texts, the causes of the statuses of printing, of a refusal by the texts and of a text
/// that is too long exclude each other, and there is at most one text to print, and at most one line of a refusal.
/// (The cause of faulty words excludes them, since there is no command then.)
pub fn causes_exclude()
    ensures { CausesExclude }
{}
