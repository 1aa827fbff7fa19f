ghost use Rattle.std.specs.Prelude.{◌≡◌, ℕ, ◌+◌, ◌≤◌, List, [], ◌∷◌, ◌++◌};
ghost use Rattle.arrayvec.specs.ArrayString.{array_string_len};
ghost use Rattle.page.specs.Text.{decimal, coordinate, vertex_line, face_line, header};

use arrayvec::ArrayString;
use grid::Triangle;
use itoa::Buffer;
use mesh::Coordinates;

// The text of a line. The longest, of three coordinates of 25 bytes, takes 78.
pub type Text = ArrayString<80>;

// Appends a number in decimal.
#[tactic(auto, using(crate::proofs::Decimal::decimal_printed))]
fn push_number(text: &mut Text, n: u64)
    requires { array_string_len text.old ≤ 60 }
    ensures text { text.new.bytes ≡ text.old.bytes ++ decimal n }
    ensures long { array_string_len text.new ≤ array_string_len text.old + 20 }
{
    let mut digits = Buffer::new();
    text.push_str(digits.format(n));
}

// Appends a number of ten-thousandths.
#[tactic(auto, unfolding(crate::specs::Text::coordinate))]
fn push_coordinate(text: &mut Text, n: u32)
    requires { array_string_len text.old ≤ 55 }
    ensures text { text.new.bytes ≡ text.old.bytes ++ coordinate n }
    ensures long { array_string_len text.new ≤ array_string_len text.old + 25 }
{
    push_number(text, u64::from(n / 10_000));
    text.push('.');
    for front in [n / 1000, n / 100, n / 10, n] {
        text.push(char::from(b'0' + (front % 10) as u8));
    }
}

// The first two lines of a page for so many vertices and faces.
#[tactic(auto, unfolding(crate::specs::Text::header))]
pub fn heading(vertices: u64, faces: u64) -> Text
    ensures { result.bytes ≡ header vertices faces }
{
    let mut text = Text::new();
    text.push_str("OFF\n");
    push_number(&mut text, vertices);
    text.push(' ');
    push_number(&mut text, faces);
    text.push_str(" 0\n");
    text
}

// What a line of a page shows.
pub trait Line: Copy {
    // Its numbers.
    ghost numbers: { Self → List ℕ };

    // Its text.
    ghost text: { Self → List ℕ };

    fn numbers(self) -> [u32; 3]
        ensures { result ≡ numbers self };

    fn text(self) -> Text
        ensures { result.bytes ≡ text self };
}

// A vertex line.
impl Line for Coordinates {
    ghost numbers = { λ v. v.x ∷ v.y ∷ v.z ∷ [] };

    ghost text = { vertex_line };

    fn numbers(self) -> [u32; 3] {
        [self.x, self.y, self.z]
    }

    #[tactic(auto, unfolding(crate::specs::Text::vertex_line))]
    fn text(self) -> Text {
        let mut text = Text::new();
        push_coordinate(&mut text, self.x);
        text.push(' ');
        push_coordinate(&mut text, self.y);
        text.push(' ');
        push_coordinate(&mut text, self.z);
        text.push('\n');
        text
    }
}

// A face line.
impl Line for Triangle<u32> {
    ghost numbers = { λ f. f.a ∷ f.b ∷ f.c ∷ [] };

    ghost text = { face_line };

    fn numbers(self) -> [u32; 3] {
        [self.a, self.b, self.c]
    }

    #[tactic(auto, unfolding(crate::specs::Text::face_line))]
    fn text(self) -> Text {
        let mut text = Text::new();
        text.push_str("3 ");
        push_number(&mut text, u64::from(self.a));
        text.push(' ');
        push_number(&mut text, u64::from(self.b));
        text.push(' ');
        push_number(&mut text, u64::from(self.c));
        text.push('\n');
        text
    }
}
