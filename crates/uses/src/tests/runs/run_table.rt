//! Worked runs, `WORDS | TEXT | CALL => LINES / STATUS`: what a command writes for a text, line by line, and how it
//! ends, where a call of its source fails. `-` is no call, and of several calls each fails in another run. After the last
//! word is a blank where that word is empty.

/// The listing of `90 06 90`.
pub const REFUSED: &str = "0 1 NOP m0 / 1 error: invalid opcode / Refused";

pub const RUNS: &str = " | 01 d8 | - => Usage
List | 01 d8 | - => Usage
list strict | 01 d8 | - => Usage
list --strict   | 01 d8 | - => Usage
--strict list | 01 d8 | - => Usage
make | 01 d8 | - => Usage
make 0 | 01 d8 | - => Usage
make 01 | 01 d8 | - => Usage
make +1 | 01 d8 | - => Usage
make 1000001 | 01 d8 | - => Usage
list |  | - => Done
list | 01 d8 | - => 0 2 ADD eax, ebx m4 / Done
list | 01 | - => 0 error: exhausted input / Refused
list | 01 d8 06 | - => 0 2 ADD eax, ebx m4 / 2 error: invalid opcode / Refused
list | 01 d8 06 01 d8 | - => 0 2 ADD eax, ebx m4 / 2 error: invalid opcode / Refused
list | 01 zz | - => text error at 3 / BadText
list | 01 d8 4 | - => 0 2 ADD eax, ebx m4 / text error at 7 / BadText
list | 90 | - => 0 1 NOP m0 / Done
list | 90 06 90 | - => 0 1 NOP m0 / 1 error: invalid opcode / Refused
list | 90 4 | - => 0 1 NOP m0 / text error at 4 / BadText
list | 03 zz | - => text error at 3 / BadText
list | 0f ae e9 | - => 0 3 LFENCE m0 / Done
list --strict | 0f ae e9 | - => 0 error: invalid operand / Refused
sweep |  | - => Done
sweep | 06 01 d8 01 | - => 0 error: invalid opcode / 1 2 ADD eax, ebx m4 / 3 error: exhausted input / Done
sweep | 01 d8 4 | - => 0 2 ADD eax, ebx m4 / text error at 7 / BadText
tighten | 48 8b 84 25 00 00 00 00 8b c0 | - => 0 8 4 / 8 2 2 / Done
tighten | 8b 05 00 00 00 00 8b 04 45 00 00 00 00 | - => 0 6 6 / 6 7 3 / Done
tighten | 06 | - => 0 error: invalid opcode / Refused
targets | eb fe | - => 0 / Done
targets | 74 01 06 eb fb 90 | - => 0 / 3 / Done
targets | eb ff 90 | - => Done
targets | eb 7f | - => Done
targets | eb fe 9 | - => 0 / text error at 7 / BadText
make 1 | 01 d8 | - => 1 instructions 2 bytes 0 rip 0 abs / Done
make 192 | 01 d8 | - => 192 instructions 760 bytes 8 rip 0 abs / Done
make 7296 | 01 d8 | - => 7296 instructions 29040 bytes 304 rip 8 abs / Done
list | 01 d8 | 0 => read fault / ReadFault
list | 01 d8 | 5 => 0 2 ADD eax, ebx m4 / read fault / ReadFault
list | 01 d8 | 6 7 8 => 0 2 ADD eax, ebx m4 / Done
list | 01 d8 01 d8 | 0 1 2 3 4 => read fault / ReadFault
list | 01 d8 01 d8 | 5 6 7 8 9 10 => 0 2 ADD eax, ebx m4 / read fault / ReadFault
list | 01 d8 01 d8 | 11 => 0 2 ADD eax, ebx m4 / 2 2 ADD eax, ebx m4 / read fault / ReadFault
list | 01 d8 01 d8 | 12 => 0 2 ADD eax, ebx m4 / 2 2 ADD eax, ebx m4 / Done
list | 01 | 2 => read fault / ReadFault
list | 90 | 2 => 0 1 NOP m0 / read fault / ReadFault
list | 90 90 | 0 1 => read fault / ReadFault
list | 90 90 | 2 3 4 => 0 1 NOP m0 / read fault / ReadFault
list | 90 90 | 5 => 0 1 NOP m0 / 1 1 NOP m0 / read fault / ReadFault
list | 90 90 | 6 => 0 1 NOP m0 / 1 1 NOP m0 / Done
list | 03 | 2 => read fault / ReadFault
fields | 90 90 | 3 => 0 1 - - 90 - - - - - / read fault / ReadFault
targets | eb fe | 4 => read fault / ReadFault
targets | eb fe | 5 => 0 / read fault / ReadFault";
