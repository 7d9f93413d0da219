// What a block is filled with: one byte, by its address and its age.
ghost use Rattle.std.specs.Prelude.{◌≡◌, ◌<◌};
ghost use Rattle.powercut.specs.Contents.{byte_of, number};

// At home, in the log, in the save or as the photograph.
#[derive(Clone, Copy)]
pub(crate) enum Age {
    Home,
    Log,
    Save,
}

// 34 to 64, 98 to 128, 162 to 192.
pub(crate) fn byte(address: u32, age: Age) -> u8
    requires { address < 65 }
    ensures { result ≡ byte_of address (number age) }
{
    (address + 64 * age as u32) as u8
}
