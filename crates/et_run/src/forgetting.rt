//! The texts of objects that a flush reports.
ghost use Rattle.std.specs.Prelude.{◌≡◌, ◌==◌, not};
ghost use Rattle.std.specs.List.{list_any};
ghost use Rattle.et_state.specs.Texts.{texts_left};

use et_graph::Death;
use et_strings::Texts;

/// Forgets the texts of the objects of these deaths. It takes no memory.
pub fn forget_dead(texts: &mut Texts, deaths: &[Death])
    ensures { texts.new
        ≡ texts_left (λ o. not (list_any (λ d. d.object == o) deaths.now)) texts.old }
{
    'deaths: for death in deaths {
        texts.forget(death.object);
    }
}
