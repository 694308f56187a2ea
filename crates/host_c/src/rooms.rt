// The words of room that suffice for a rule, at the border to C.
ghost use Rattle.std.specs.Prelude.{◌≡◌, []};
ghost use Rattle.host.specs.Border.{called};
ghost use Rattle.host.specs.Rooms.{room_called};

#[unsafe(no_mangle)]
pub extern "C" fn lozhbinor_room(
    form: u32,
    matcher: &[i32],
    pattern: &[i32],
    cap: i32,
    longest: u32,
    numbers: &mut [u8],
) -> u32
    ensures { called result [] numbers.new ≡ room_called form matcher.now pattern.now cap longest numbers.old }
{
    host::rooms::lozhbinor_room(form, matcher, pattern, cap, longest, numbers)
}
