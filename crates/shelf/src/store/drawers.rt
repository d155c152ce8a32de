// The drawers, one by one.
ghost use Rattle.std.specs.Prelude.{◌≡◌, ◌<◌, ◌≤◌, true, List, length, Some, None, MatchResult};
ghost use Rattle.fault.specs.declared.Fault.TheVariants.{NoSuchDrawer, DrawerFilled, DrawerEmpty};
ghost use Rattle.terms.specs.Forms as forms;
ghost use Rattle.terms.specs.declared.Term.{Term};
ghost use Rattle.terms.specs.declared.nets.NetSet.{NetSet};
ghost use Rattle.ledger.specs.Rules.{Free, NotFree, Shows, ShowsNothing};
ghost use Rattle.shelf.specs.Formed.{formed};
ghost use Rattle.shelf.specs.Held.{held, held_at};

use super::{Drawer, Form, Shelf};
use bounded::Bounded;
use fault::Fault;
use terms::nets::{NetSet, Nets};
use terms::{Kind, Term};

impl Drawer {
    // An empty drawer.
    pub fn empty() -> Self
        ensures { held result ≡ None }
    {
        Drawer { form: None }
    }

    // Fills it with these terms.
    pub(super) fn fill(&mut self, form: &[Term<NetSet>])
        requires few { length form.now ≤ 256 }
        requires formed { formed form.now ≡ true }
        ensures { held self.new ≡ Some form.now }
    {
        let blank = Term {
            code: 0,
            mono: Nets.unit(),
        };
        let terms = Bounded::copy_of(form, blank);
        self.form = Some(Form { terms });
    }

    // Empties it.
    pub(super) fn clear(&mut self)
        ensures { held self.new ≡ None }
    {
        self.form = None;
    }

    // Its terms, where it is filled.
    pub(super) fn terms(&self) -> Result<&[Term<NetSet>], Fault>
        ensures { MatchResult result (λ us. (held self.now ≡ Some us.now) × forms.Form us.now) (λ e. (held self.now ≡ None) × (e ≡ DrawerEmpty)) }
    {
        let form = self.form.as_ref().ok_or(Fault::DrawerEmpty)?;
        Ok(form.terms.as_slice())
    }
}

impl<F> Shelf<F> {
    // The drawer with this number.
    pub(super) fn drawer(&self, at: usize) -> Result<&Drawer, Fault>
        ensures { MatchResult result (λ D. (at ≤ 15) × (held_at self.now.drawers at ≡ held D.now)) (λ e. (15 < at) × (e ≡ NoSuchDrawer)) }
    {
        self.drawers.get(at).ok_or(Fault::NoSuchDrawer)
    }

    // The terms in a drawer.
    pub(super) fn terms(&self, at: usize) -> Result<&[Term<NetSet>], Fault>
        ensures { MatchResult result (λ us. Shows (held_at self.now.drawers) at us.now × forms.Form us.now) (ShowsNothing (held_at self.now.drawers) at) }
    {
        self.drawer(at)?.terms()
    }

    // Whether a drawer can be filed into.
    pub(super) fn check_free(&self, at: usize) -> Result<(), Fault>
        ensures { MatchResult result (λ _. Free (held_at self.now.drawers) at) (NotFree (held_at self.now.drawers) at) }
    {
        match self.drawer(at)?.form {
            Some(_) => Err(Fault::DrawerFilled),
            None => Ok(()),
        }
    }
}
