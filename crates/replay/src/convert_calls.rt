// The call that converts a CU file: convert.
ghost use Rattle.std.specs.Prelude.{◌≡◌};
ghost use Rattle.replay.specs.Text.{Puts};
ghost use Rattle.replay.specs.Answers.{conversion_bytes, conversion_in, convert_answer, registers_converted};

use crate::registers::Registers;
use crate::text::Output;

pub fn convert(registers: &mut Registers, output: &mut Output<impl Print>)
    ensures puts { Puts output (convert_answer registers.old) }
    ensures registers { registers.new ≡ registers_converted registers.old }
{
    let out = registers.out.as_mut_slice();
    match convert::convert(registers.cu.as_slice(), out) {
        Ok(count) => {
            put_conversion(0, count, output);
            registers.keep_written(count);
        }
        Err(refusal) => {
            put_conversion(refusal.number(), 0, output);
            registers.keep_written(0);
        }
    }
}

fn put_conversion(number: u32, written: usize, output: &mut Output<impl Print>)
    ensures { Puts output (conversion_bytes number written) }
{
    output.put_all(b"convert");
    output.put_number(number);
    output.put_number(written);
    output.put(b'\n');
}
