// The text of scripts and listings: words, decimal numbers, and byte strings in hexadecimal digits. Here stand the rules;
// their code is `text_words`, `text_numbers` and `text_hex`.
//
// The rules are definitions of `specs/`: `Words` (how a line splits), `Digits` (single digits), `Numbers` (numbers as they are read and
// printed) and `Hex` (byte strings as they are read and printed, and what a lent output holds afterwards).
#![tactic(auto)]
