// The numbers of components.
ghost use Rattle.std.specs.Prelude.{◌≡◌, ◌≤◌};
ghost use Rattle.hisc.specs.Lines.{plant, supervisor, interface};

pub(crate) const HIGH_PLANT: u8 = 0;

pub(crate) const HIGH_SUPERVISOR: u8 = 1;

pub(crate) fn plant(level: u8) -> u8
    requires { (1 ≤ level) × (level ≤ 8) }
    ensures { result ≡ plant level }
{
    3 * level - 1
}

pub(crate) fn supervisor(level: u8) -> u8
    requires { level ≤ 8 }
    ensures { result ≡ supervisor level }
{
    3 * level
}

pub(crate) fn interface(level: u8) -> u8
    requires { level ≤ 8 }
    ensures { result ≡ interface level }
{
    3 * level + 1
}
