// The rules of messages as the data of a CSP packet, the type, the ID, then the data as on a serial link: definitions of `specs/Csp.antt`,
// and both round trips. `csp_reader` and `csp_writer` stand on it.
#![tactic(auto)]
