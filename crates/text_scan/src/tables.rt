// The two tables that texts are read by: a class for each byte, and the next state for each state and class.
// specs/Classes.antt and specs/Steps.antt have what each means by its number, and the rules that the tables are proved to meet.

// What a byte is to the machine. `E` to `Y` are the letters of `empty`.
#[derive(Clone, Copy)]
pub enum ByteClass {
    Nowhere, // no text of the grammar has it
    Zero, // `0`: a variable's number that begins with it ends there
    Digit, // `1` to `9`
    Letter, // `i`, `s`, `a`, `l`, with which a variable begins
    Quote,
    Colon, // between terms
    Bar, // between fields
    E,
    M,
    P,
    T,
    Y,
    Inside, // in a string alone
    Minus, // the sign of an integer
}

// Where the machine stands in a text.
#[derive(Clone, Copy, PartialEq, Eq)]
pub enum Reading {
    Before, // before a term
    InDigits, // in an integer's or a variable's digits
    AtNumber, // before a variable's number
    Behind, // behind a term
    InString, // in a string
    AtM, // in `empty`, before its `m`
    AtP, // before its `p`
    AtT, // before its `t`
    AtY, // before its `y`
    AtDigits, // behind an integer's minus
    Refused,
}

use ByteClass::{Bar, Colon, Digit, E, Inside, Letter, M, Minus, Nowhere, P, Quote, T, Y, Zero};
use Reading::{
    AtDigits, AtM, AtNumber, AtP, AtT, AtY, Before, Behind, InDigits, InString, Refused,
};

// Document 01: "a table over all 256 byte values says what each byte may begin". The five classes are here in finer ones, which decide
// the next state: digit (Zero, Digit), letter (Letter, and E to Y), quote (Quote), separator (Colon, Bar), in-string (Inside).
// Document 02 adds the sign (Minus).
pub static CLASSES: [ByteClass; 256] = [
    Nowhere, // 0
    Nowhere, // 1
    Nowhere, // 2
    Nowhere, // 3
    Nowhere, // 4
    Nowhere, // 5
    Nowhere, // 6
    Nowhere, // 7
    Nowhere, // 8
    Nowhere, // 9 tab
    Nowhere, // 10 newline
    Nowhere, // 11
    Nowhere, // 12
    Nowhere, // 13
    Nowhere, // 14
    Nowhere, // 15
    Nowhere, // 16
    Nowhere, // 17
    Nowhere, // 18
    Nowhere, // 19
    Nowhere, // 20
    Nowhere, // 21
    Nowhere, // 22
    Nowhere, // 23
    Nowhere, // 24
    Nowhere, // 25
    Nowhere, // 26
    Nowhere, // 27
    Nowhere, // 28
    Nowhere, // 29
    Nowhere, // 30
    Nowhere, // 31
    Inside, // 32 blank
    Inside, // 33 !
    Quote, // 34 "
    Inside, // 35 #
    Inside, // 36 $
    Inside, // 37 %
    Inside, // 38 &
    Inside, // 39 '
    Inside, // 40 (
    Inside, // 41 )
    Inside, // 42 *
    Inside, // 43 +
    Inside, // 44 ,
    Minus, // 45 -
    Inside, // 46 .
    Inside, // 47 /
    Zero, // 48 0
    Digit, // 49 1
    Digit, // 50 2
    Digit, // 51 3
    Digit, // 52 4
    Digit, // 53 5
    Digit, // 54 6
    Digit, // 55 7
    Digit, // 56 8
    Digit, // 57 9
    Colon, // 58 :
    Inside, // 59 ;
    Inside, // 60 <
    Inside, // 61 =
    Inside, // 62 >
    Inside, // 63 ?
    Inside, // 64 @
    Inside, // 65 A
    Inside, // 66 B
    Inside, // 67 C
    Inside, // 68 D
    Inside, // 69 E
    Inside, // 70 F
    Inside, // 71 G
    Inside, // 72 H
    Inside, // 73 I
    Inside, // 74 J
    Inside, // 75 K
    Inside, // 76 L
    Inside, // 77 M
    Inside, // 78 N
    Inside, // 79 O
    Inside, // 80 P
    Inside, // 81 Q
    Inside, // 82 R
    Inside, // 83 S
    Inside, // 84 T
    Inside, // 85 U
    Inside, // 86 V
    Inside, // 87 W
    Inside, // 88 X
    Inside, // 89 Y
    Inside, // 90 Z
    Inside, // 91 [
    Inside, // 92 \
    Inside, // 93 ]
    Inside, // 94 ^
    Inside, // 95 _
    Inside, // 96 `
    Letter, // 97 a
    Inside, // 98 b
    Inside, // 99 c
    Inside, // 100 d
    E, // 101 e
    Inside, // 102 f
    Inside, // 103 g
    Inside, // 104 h
    Letter, // 105 i
    Inside, // 106 j
    Inside, // 107 k
    Letter, // 108 l
    M, // 109 m
    Inside, // 110 n
    Inside, // 111 o
    P, // 112 p
    Inside, // 113 q
    Inside, // 114 r
    Letter, // 115 s
    T, // 116 t
    Inside, // 117 u
    Inside, // 118 v
    Inside, // 119 w
    Inside, // 120 x
    Y, // 121 y
    Inside, // 122 z
    Inside, // 123 {
    Bar, // 124 |
    Inside, // 125 }
    Inside, // 126 ~
    Nowhere, // 127 delete
    Nowhere, // 128
    Nowhere, // 129
    Nowhere, // 130
    Nowhere, // 131
    Nowhere, // 132
    Nowhere, // 133
    Nowhere, // 134
    Nowhere, // 135
    Nowhere, // 136
    Nowhere, // 137
    Nowhere, // 138
    Nowhere, // 139
    Nowhere, // 140
    Nowhere, // 141
    Nowhere, // 142
    Nowhere, // 143
    Nowhere, // 144
    Nowhere, // 145
    Nowhere, // 146
    Nowhere, // 147
    Nowhere, // 148
    Nowhere, // 149
    Nowhere, // 150
    Nowhere, // 151
    Nowhere, // 152
    Nowhere, // 153
    Nowhere, // 154
    Nowhere, // 155
    Nowhere, // 156
    Nowhere, // 157
    Nowhere, // 158
    Nowhere, // 159
    Nowhere, // 160
    Nowhere, // 161
    Nowhere, // 162
    Nowhere, // 163
    Nowhere, // 164
    Nowhere, // 165
    Nowhere, // 166
    Nowhere, // 167
    Nowhere, // 168
    Nowhere, // 169
    Nowhere, // 170
    Nowhere, // 171
    Nowhere, // 172
    Nowhere, // 173
    Nowhere, // 174
    Nowhere, // 175
    Nowhere, // 176
    Nowhere, // 177
    Nowhere, // 178
    Nowhere, // 179
    Nowhere, // 180
    Nowhere, // 181
    Nowhere, // 182
    Nowhere, // 183
    Nowhere, // 184
    Nowhere, // 185
    Nowhere, // 186
    Nowhere, // 187
    Nowhere, // 188
    Nowhere, // 189
    Nowhere, // 190
    Nowhere, // 191
    Nowhere, // 192
    Nowhere, // 193
    Nowhere, // 194
    Nowhere, // 195
    Nowhere, // 196
    Nowhere, // 197
    Nowhere, // 198
    Nowhere, // 199
    Nowhere, // 200
    Nowhere, // 201
    Nowhere, // 202
    Nowhere, // 203
    Nowhere, // 204
    Nowhere, // 205
    Nowhere, // 206
    Nowhere, // 207
    Nowhere, // 208
    Nowhere, // 209
    Nowhere, // 210
    Nowhere, // 211
    Nowhere, // 212
    Nowhere, // 213
    Nowhere, // 214
    Nowhere, // 215
    Nowhere, // 216
    Nowhere, // 217
    Nowhere, // 218
    Nowhere, // 219
    Nowhere, // 220
    Nowhere, // 221
    Nowhere, // 222
    Nowhere, // 223
    Nowhere, // 224
    Nowhere, // 225
    Nowhere, // 226
    Nowhere, // 227
    Nowhere, // 228
    Nowhere, // 229
    Nowhere, // 230
    Nowhere, // 231
    Nowhere, // 232
    Nowhere, // 233
    Nowhere, // 234
    Nowhere, // 235
    Nowhere, // 236
    Nowhere, // 237
    Nowhere, // 238
    Nowhere, // 239
    Nowhere, // 240
    Nowhere, // 241
    Nowhere, // 242
    Nowhere, // 243
    Nowhere, // 244
    Nowhere, // 245
    Nowhere, // 246
    Nowhere, // 247
    Nowhere, // 248
    Nowhere, // 249
    Nowhere, // 250
    Nowhere, // 251
    Nowhere, // 252
    Nowhere, // 253
    Nowhere, // 254
    Nowhere, // 255
];

// How many classes there are, so how long a row of the step table is; and how many states but the last have a row.
const CLASS_COUNT: usize = 14;

const STATE_COUNT: usize = 10;

// The next state, a row for each state and a column for each class.
pub static STEPS: [[Reading; CLASS_COUNT]; STATE_COUNT] = [
    [
        Refused, // Before, Nowhere
        InDigits, // Before, Zero
        InDigits, // Before, Digit
        AtNumber, // Before, Letter
        InString, // Before, Quote
        Refused, // Before, Colon
        Refused, // Before, Bar
        AtM, // Before, E
        Refused, // Before, M
        Refused, // Before, P
        Refused, // Before, T
        Refused, // Before, Y
        Refused, // Before, Inside
        AtDigits, // Before, Minus
    ],
    [
        Refused, // InDigits, Nowhere
        InDigits, // InDigits, Zero
        InDigits, // InDigits, Digit
        Refused, // InDigits, Letter
        Refused, // InDigits, Quote
        Before, // InDigits, Colon
        Before, // InDigits, Bar
        Refused, // InDigits, E
        Refused, // InDigits, M
        Refused, // InDigits, P
        Refused, // InDigits, T
        Refused, // InDigits, Y
        Refused, // InDigits, Inside
        Refused, // InDigits, Minus
    ],
    [
        Refused, // AtNumber, Nowhere
        Behind, // AtNumber, Zero
        InDigits, // AtNumber, Digit
        Refused, // AtNumber, Letter
        Refused, // AtNumber, Quote
        Refused, // AtNumber, Colon
        Refused, // AtNumber, Bar
        Refused, // AtNumber, E
        Refused, // AtNumber, M
        Refused, // AtNumber, P
        Refused, // AtNumber, T
        Refused, // AtNumber, Y
        Refused, // AtNumber, Inside
        Refused, // AtNumber, Minus
    ],
    [
        Refused, // Behind, Nowhere
        Refused, // Behind, Zero
        Refused, // Behind, Digit
        Refused, // Behind, Letter
        Refused, // Behind, Quote
        Before, // Behind, Colon
        Before, // Behind, Bar
        Refused, // Behind, E
        Refused, // Behind, M
        Refused, // Behind, P
        Refused, // Behind, T
        Refused, // Behind, Y
        Refused, // Behind, Inside
        Refused, // Behind, Minus
    ],
    [
        Refused, // InString, Nowhere
        InString, // InString, Zero
        InString, // InString, Digit
        InString, // InString, Letter
        Behind, // InString, Quote
        InString, // InString, Colon
        InString, // InString, Bar
        InString, // InString, E
        InString, // InString, M
        InString, // InString, P
        InString, // InString, T
        InString, // InString, Y
        InString, // InString, Inside
        InString, // InString, Minus
    ],
    [
        Refused, // AtM, Nowhere
        Refused, // AtM, Zero
        Refused, // AtM, Digit
        Refused, // AtM, Letter
        Refused, // AtM, Quote
        Refused, // AtM, Colon
        Refused, // AtM, Bar
        Refused, // AtM, E
        AtP, // AtM, M
        Refused, // AtM, P
        Refused, // AtM, T
        Refused, // AtM, Y
        Refused, // AtM, Inside
        Refused, // AtM, Minus
    ],
    [
        Refused, // AtP, Nowhere
        Refused, // AtP, Zero
        Refused, // AtP, Digit
        Refused, // AtP, Letter
        Refused, // AtP, Quote
        Refused, // AtP, Colon
        Refused, // AtP, Bar
        Refused, // AtP, E
        Refused, // AtP, M
        AtT, // AtP, P
        Refused, // AtP, T
        Refused, // AtP, Y
        Refused, // AtP, Inside
        Refused, // AtP, Minus
    ],
    [
        Refused, // AtT, Nowhere
        Refused, // AtT, Zero
        Refused, // AtT, Digit
        Refused, // AtT, Letter
        Refused, // AtT, Quote
        Refused, // AtT, Colon
        Refused, // AtT, Bar
        Refused, // AtT, E
        Refused, // AtT, M
        Refused, // AtT, P
        AtY, // AtT, T
        Refused, // AtT, Y
        Refused, // AtT, Inside
        Refused, // AtT, Minus
    ],
    [
        Refused, // AtY, Nowhere
        Refused, // AtY, Zero
        Refused, // AtY, Digit
        Refused, // AtY, Letter
        Refused, // AtY, Quote
        Refused, // AtY, Colon
        Refused, // AtY, Bar
        Refused, // AtY, E
        Refused, // AtY, M
        Refused, // AtY, P
        Refused, // AtY, T
        Behind, // AtY, Y
        Refused, // AtY, Inside
        Refused, // AtY, Minus
    ],
    [
        Refused, // AtDigits, Nowhere
        InDigits, // AtDigits, Zero
        InDigits, // AtDigits, Digit
        Refused, // AtDigits, Letter
        Refused, // AtDigits, Quote
        Refused, // AtDigits, Colon
        Refused, // AtDigits, Bar
        Refused, // AtDigits, E
        Refused, // AtDigits, M
        Refused, // AtDigits, P
        Refused, // AtDigits, T
        Refused, // AtDigits, Y
        Refused, // AtDigits, Inside
        Refused, // AtDigits, Minus
    ],
];
