// What the program `replay` does with a line of a script: the call, on one of four shots, and the text of its answer.
#![tactic(auto)]

ghost use Rattle.std.specs.Prelude.{◌≡◌, ◌/◌, ◌≤◌, ◌<◌, length};
ghost use Rattle.hexadecimal.specs.Hexadecimal.{decoded};
ghost use Rattle.pixel.specs.MoveOne.{moved_one};
ghost use Rattle.pixel.specs.Strip.{pixel_from};
ghost use Rattle.script.specs.Script.{line_limit, HasCall};
ghost use Rattle.answers.specs.Answers.{byte_limit, text_limit, number_text, WritesAnswer};
ghost use Rattle.book.specs.Book.{Call.opening, Call.measuring, Call.fixing, Call.colouring};
ghost use Rattle.interpreter.specs.Interpreter.{place_of, new_shots, shot_of, with_shot, moved_text, kept, on_shot, answer_to, LeavesReply};

use dial::Dial;
use script::Command;
use shot::{Answer, Shot};

// The shots of a script, by their numbers from 1 to 4. (Outputs are slices with a clause on their room, as `answer` has them for its
// callers: an array would have to be cut out of theirs.)
#[derive(Clone, Copy)]
pub struct Shots {
    all: [Shot; 4],
}

// The place of a shot: those of a script have the numbers 1 to 4, those of the array the places 0 to 3. (A line that is read as a call has
// no other number; the rest have the last place, so that no clause has to ask for one of the four. `Command` has numbers and no type of the
// four, since the examples and the laws of lists speak of shots by number: such a type would be made of one and turned back into it.)
fn place_of(number: u32) -> usize
    ensures { (result ≡ place_of number) × (result < 4) }
{
    match number {
        1 => 0,
        2 => 1,
        3 => 2,
        _ => 3,
    }
}

// The bytes that digits stand for, at the start of a buffer that has room for them: nothing allocates.
fn bytes_of<'a>(digits: &[u8], buffer: &'a mut [u8]) -> &'a mut [u8]
    requires { length digits.now / 2 ≤ length buffer.old }
    ensures { result.now ≡ decoded digits.now }
{
    let count = hexadecimal::decode(digits, buffer);
    &mut buffer[..count]
}

// move
#[tactic(auto, using(hexadecimal::proofs::Hexadecimal::length_decoded))]
fn move_pixel(method: u32, pixel: &[u8], target: u32, output: &mut [u8]) -> usize
    requires pixel_len { length pixel.now ≡ 6 }
    requires text_limit_in_bounds { text_limit ≤ length output.old }
    ensures { WritesAnswer (moved_text (moved_one method (pixel_from (decoded pixel.now) 0) target)) output.old result output.new }
{
    let mut buffer = [0u8; 3];
    let bytes = bytes_of(pixel, &mut buffer);
    let moved = pixel::move_one(method, pixel::read_pixel(bytes, 0), target);
    let (number, p) = pixel::move_answer(moved);
    answers::write_bytes(number, &<[u8; 3]>::from(p), output)
}

impl Shots {
    // Four new shots.
    pub fn new() -> Shots
        ensures { result ≡ new_shots }
    {
        Shots {
            all: [Shot::open(); 4],
        }
    }

    // The shot with this number.
    fn shot(&self, number: u32) -> Shot
        ensures { result ≡ shot_of self.now number }
    {
        self.all[place_of(number)]
    }

    // Puts a shot in the place of its number.
    fn keep(&mut self, number: u32, shot: Shot)
        ensures { self.new ≡ with_shot self.old number shot }
    {
        self.all[place_of(number)] = shot;
    }

    // Keeps the shot that a call handed back, and writes the call's number.
    fn keep_answer(&mut self, number: u32, answer: Answer, output: &mut [u8]) -> usize
        requires { text_limit ≤ length output.old }
        ensures { LeavesReply (kept self.old number answer (number_text answer.number)) output.old self.new result output.new }
    {
        self.keep(number, answer.shot);
        answers::write_number(answer.number, output)
    }

    // open
    fn open_shot(&mut self, number: u32, output: &mut [u8]) -> usize
        requires { text_limit ≤ length output.old }
        ensures { LeavesReply (on_shot self.old number opening) output.old self.new result output.new }
    {
        let answer = book::open(self.shot(number));
        self.keep_answer(number, answer, output)
    }

    // measure
    fn measure_shot(&mut self, number: u32, strip: &[u8], output: &mut [u8]) -> usize
        requires strip_len_bound { length strip.now ≤ line_limit }
        requires text_limit_in_bounds { text_limit ≤ length output.old }
        ensures { LeavesReply (on_shot self.old number (measuring (decoded strip.now))) output.old self.new result output.new }
    {
        let mut buffer = [0u8; answers::BYTE_LIMIT];
        let bytes = bytes_of(strip, &mut buffer);
        let answer = book::measure(self.shot(number), bytes);
        self.keep_answer(number, answer, output)
    }

    // fix
    fn fix_shot(&mut self, number: u32, choice: u32, output: &mut [u8]) -> usize
        requires { text_limit ≤ length output.old }
        ensures { LeavesReply (on_shot self.old number (fixing choice)) output.old self.new result output.new }
    {
        let answer = book::fix(self.shot(number), choice);
        self.keep_answer(number, answer, output)
    }

    // Colours bytes, and answers with what the destination then holds. (The arguments are those of `book::colour`, one by one: nothing else
    // would take a struct of them.)
    fn colour_bytes(
        &mut self,
        number: u32,
        method: u32,
        dial: Dial,
        source: &[u8],
        destination: &mut [u8],
        output: &mut [u8],
    ) -> usize
        requires destination_len_bound { length destination.old ≤ byte_limit }
        requires text_limit_in_bounds { text_limit ≤ length output.old }
        ensures { LeavesReply (on_shot self.old number (colouring (record { method = method; dial = dial; source = source.now; destination = destination.old }))) output.old self.new result output.new }
    {
        let answer = book::colour(self.shot(number), method, dial, source, destination);
        self.keep(number, answer.shot);
        answers::write_bytes(answer.number, destination, output)
    }

    // colour
    #[tactic(auto, using(hexadecimal::proofs::Hexadecimal::length_decoded))]
    fn colour_shot(
        &mut self,
        number: u32,
        method: u32,
        dial: Dial,
        source: &[u8],
        destination: &[u8],
        output: &mut [u8],
    ) -> usize
        requires source_len_bound { length source.now ≤ line_limit }
        requires destination_len_bound { length destination.now ≤ line_limit }
        requires text_limit_in_bounds { text_limit ≤ length output.old }
        ensures { LeavesReply (on_shot self.old number (colouring (record { method = method; dial = dial; source = decoded source.now; destination = decoded destination.now }))) output.old self.new result output.new }
    {
        let mut from = [0u8; answers::BYTE_LIMIT];
        let from = bytes_of(source, &mut from);
        let mut to = [0u8; answers::BYTE_LIMIT];
        let to = bytes_of(destination, &mut to);
        self.colour_bytes(number, method, dial, from, to, output)
    }

    // Makes a call that a line is read as, writes its answer at the start of the output, and hands back how many bytes that has.
    pub fn answer(&mut self, command: Command, line: &[u8], output: &mut [u8]) -> usize
        requires has_call { HasCall line.now command }
        requires text_limit_in_bounds { text_limit ≤ length output.old }
        ensures { LeavesReply (answer_to line.now self.old command) output.old self.new result output.new }
    {
        match command {
            Command::Open(number) => self.open_shot(number, output),
            Command::Measure(number, strip) => {
                self.measure_shot(number, strip.bytes_in(line), output)
            }
            Command::Fix(number, choice) => self.fix_shot(number, choice, output),
            Command::Colour(number, method, dial, source, destination) => self.colour_shot(
                number,
                method,
                dial,
                source.bytes_in(line),
                destination.bytes_in(line),
                output,
            ),
            Command::Move(method, pixel, target) => {
                move_pixel(method, pixel.bytes_in(line), target, output)
            }
        }
    }
}
