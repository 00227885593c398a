// The constant table of document 01's home slot rule. The product computes an entry by the formula (`homes::table_entry`);
// here the table is held to the rule, and the product to the table. Nothing of the product depends on this crate.
#![tactic(auto)]

ghost use Rattle.std.specs.Prelude.{◌≡◌, true};
ghost use Rattle.spec.specs.Slots.{table_entry};

// Document 01's constant table: entry i is (167 * i + 13) % 256.
const TABLE: [u8; 256] = [
    13, 180, 91, 2, 169, 80, 247, 158, 69, 236, 147, 58, 225, 136, 47, 214, 125, 36, 203, 114, 25,
    192, 103, 14, 181, 92, 3, 170, 81, 248, 159, 70, 237, 148, 59, 226, 137, 48, 215, 126, 37, 204,
    115, 26, 193, 104, 15, 182, 93, 4, 171, 82, 249, 160, 71, 238, 149, 60, 227, 138, 49, 216, 127,
    38, 205, 116, 27, 194, 105, 16, 183, 94, 5, 172, 83, 250, 161, 72, 239, 150, 61, 228, 139, 50,
    217, 128, 39, 206, 117, 28, 195, 106, 17, 184, 95, 6, 173, 84, 251, 162, 73, 240, 151, 62, 229,
    140, 51, 218, 129, 40, 207, 118, 29, 196, 107, 18, 185, 96, 7, 174, 85, 252, 163, 74, 241, 152,
    63, 230, 141, 52, 219, 130, 41, 208, 119, 30, 197, 108, 19, 186, 97, 8, 175, 86, 253, 164, 75,
    242, 153, 64, 231, 142, 53, 220, 131, 42, 209, 120, 31, 198, 109, 20, 187, 98, 9, 176, 87, 254,
    165, 76, 243, 154, 65, 232, 143, 54, 221, 132, 43, 210, 121, 32, 199, 110, 21, 188, 99, 10,
    177, 88, 255, 166, 77, 244, 155, 66, 233, 144, 55, 222, 133, 44, 211, 122, 33, 200, 111, 22,
    189, 100, 11, 178, 89, 0, 167, 78, 245, 156, 67, 234, 145, 56, 223, 134, 45, 212, 123, 34, 201,
    112, 23, 190, 101, 12, 179, 90, 1, 168, 79, 246, 157, 68, 235, 146, 57, 224, 135, 46, 213, 124,
    35, 202, 113, 24, 191, 102,
];

// Entry i of the table.
pub fn entry(i: u8) -> u8
    ensures { result ≡ table_entry i }
{
    let t = TABLE;
    t[i as usize]
}

// Entry i is what the product answers.
pub fn agrees(i: u8) -> bool
    ensures { result ≡ true }
{
    entry(i) == homes::table_entry(i)
}
