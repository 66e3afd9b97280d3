// The components of a line by number: 0 and 1 are the plant and the supervisor of the high level, 3j − 1, 3j and 3j + 1 the plant, the supervisor and
// the interface of level j.
ghost use Rattle.std.specs.Prelude.{◌≡◌};
ghost use Rattle.model.specs.Components.{level_of, is_interface};

// The level of a component; 0 is the high one.
pub fn level_of(component: u8) -> u8
    ensures { result ≡ level_of component }
{
    component.saturating_add(1) / 3
}

// Whether the component is the interface of its level.
pub fn is_interface(component: u8) -> bool
    ensures { result ≡ is_interface component }
{
    component >= 2 && component % 3 == 1
}
