//! The constants of the opcodes, their numbers and their spellings.
//!
//! Written by tools/tables.py from specs/Mnemonics.antt.
//! The proof doesn't rest on that script: a wrong entry is refused.
use crate::Opcode;

impl Opcode {
    pub const Invalid: Opcode = Opcode { number: 0 };

    pub const ADD: Opcode = Opcode { number: 1 };

    pub const OR: Opcode = Opcode { number: 2 };

    pub const ADC: Opcode = Opcode { number: 3 };

    pub const SBB: Opcode = Opcode { number: 4 };

    pub const AND: Opcode = Opcode { number: 5 };

    pub const SUB: Opcode = Opcode { number: 6 };

    pub const XOR: Opcode = Opcode { number: 7 };

    pub const CMP: Opcode = Opcode { number: 8 };

    pub const PUSH: Opcode = Opcode { number: 9 };

    pub const POP: Opcode = Opcode { number: 10 };

    pub const MOVSXD: Opcode = Opcode { number: 11 };

    pub const IMUL: Opcode = Opcode { number: 12 };

    pub const INS: Opcode = Opcode { number: 13 };

    pub const OUTS: Opcode = Opcode { number: 14 };

    pub const JO: Opcode = Opcode { number: 15 };

    pub const JNO: Opcode = Opcode { number: 16 };

    pub const JB: Opcode = Opcode { number: 17 };

    pub const JNB: Opcode = Opcode { number: 18 };

    pub const JZ: Opcode = Opcode { number: 19 };

    pub const JNZ: Opcode = Opcode { number: 20 };

    pub const JNA: Opcode = Opcode { number: 21 };

    pub const JA: Opcode = Opcode { number: 22 };

    pub const JS: Opcode = Opcode { number: 23 };

    pub const JNS: Opcode = Opcode { number: 24 };

    pub const JP: Opcode = Opcode { number: 25 };

    pub const JNP: Opcode = Opcode { number: 26 };

    pub const JL: Opcode = Opcode { number: 27 };

    pub const JGE: Opcode = Opcode { number: 28 };

    pub const JLE: Opcode = Opcode { number: 29 };

    pub const JG: Opcode = Opcode { number: 30 };

    pub const TEST: Opcode = Opcode { number: 31 };

    pub const XCHG: Opcode = Opcode { number: 32 };

    pub const MOV: Opcode = Opcode { number: 33 };

    pub const LEA: Opcode = Opcode { number: 34 };

    pub const WAIT: Opcode = Opcode { number: 35 };

    pub const PUSHF: Opcode = Opcode { number: 36 };

    pub const POPF: Opcode = Opcode { number: 37 };

    pub const SAHF: Opcode = Opcode { number: 38 };

    pub const LAHF: Opcode = Opcode { number: 39 };

    pub const MOVS: Opcode = Opcode { number: 40 };

    pub const CMPS: Opcode = Opcode { number: 41 };

    pub const STOS: Opcode = Opcode { number: 42 };

    pub const LODS: Opcode = Opcode { number: 43 };

    pub const SCAS: Opcode = Opcode { number: 44 };

    pub const RETURN: Opcode = Opcode { number: 45 };

    pub const ENTER: Opcode = Opcode { number: 46 };

    pub const LEAVE: Opcode = Opcode { number: 47 };

    pub const RETF: Opcode = Opcode { number: 48 };

    pub const INT: Opcode = Opcode { number: 49 };

    pub const XLAT: Opcode = Opcode { number: 50 };

    pub const LOOPNZ: Opcode = Opcode { number: 51 };

    pub const LOOPZ: Opcode = Opcode { number: 52 };

    pub const LOOP: Opcode = Opcode { number: 53 };

    pub const JMP: Opcode = Opcode { number: 54 };

    pub const JRCXZ: Opcode = Opcode { number: 55 };

    pub const IN: Opcode = Opcode { number: 56 };

    pub const OUT: Opcode = Opcode { number: 57 };

    pub const CALL: Opcode = Opcode { number: 58 };

    pub const HLT: Opcode = Opcode { number: 59 };

    pub const CMC: Opcode = Opcode { number: 60 };

    pub const CLC: Opcode = Opcode { number: 61 };

    pub const STC: Opcode = Opcode { number: 62 };

    pub const CLI: Opcode = Opcode { number: 63 };

    pub const STI: Opcode = Opcode { number: 64 };

    pub const CLD: Opcode = Opcode { number: 65 };

    pub const STD: Opcode = Opcode { number: 66 };

    pub const LAR: Opcode = Opcode { number: 67 };

    pub const LSL: Opcode = Opcode { number: 68 };

    pub const SYSCALL: Opcode = Opcode { number: 69 };

    pub const CLTS: Opcode = Opcode { number: 70 };

    pub const SYSRET: Opcode = Opcode { number: 71 };

    pub const INVD: Opcode = Opcode { number: 72 };

    pub const WBINVD: Opcode = Opcode { number: 73 };

    pub const UD2: Opcode = Opcode { number: 74 };

    pub const FEMMS: Opcode = Opcode { number: 75 };

    pub const NOP: Opcode = Opcode { number: 76 };

    pub const WRMSR: Opcode = Opcode { number: 77 };

    pub const RDTSC: Opcode = Opcode { number: 78 };

    pub const RDMSR: Opcode = Opcode { number: 79 };

    pub const RDPMC: Opcode = Opcode { number: 80 };

    pub const SYSENTER: Opcode = Opcode { number: 81 };

    pub const SYSEXIT: Opcode = Opcode { number: 82 };

    pub const GETSEC: Opcode = Opcode { number: 83 };

    pub const CMOVO: Opcode = Opcode { number: 84 };

    pub const CMOVNO: Opcode = Opcode { number: 85 };

    pub const CMOVB: Opcode = Opcode { number: 86 };

    pub const CMOVNB: Opcode = Opcode { number: 87 };

    pub const CMOVZ: Opcode = Opcode { number: 88 };

    pub const CMOVNZ: Opcode = Opcode { number: 89 };

    pub const CMOVNA: Opcode = Opcode { number: 90 };

    pub const CMOVA: Opcode = Opcode { number: 91 };

    pub const CMOVS: Opcode = Opcode { number: 92 };

    pub const CMOVNS: Opcode = Opcode { number: 93 };

    pub const CMOVP: Opcode = Opcode { number: 94 };

    pub const CMOVNP: Opcode = Opcode { number: 95 };

    pub const CMOVL: Opcode = Opcode { number: 96 };

    pub const CMOVGE: Opcode = Opcode { number: 97 };

    pub const CMOVLE: Opcode = Opcode { number: 98 };

    pub const CMOVG: Opcode = Opcode { number: 99 };

    pub const SETO: Opcode = Opcode { number: 100 };

    pub const SETNO: Opcode = Opcode { number: 101 };

    pub const SETB: Opcode = Opcode { number: 102 };

    pub const SETAE: Opcode = Opcode { number: 103 };

    pub const SETZ: Opcode = Opcode { number: 104 };

    pub const SETNZ: Opcode = Opcode { number: 105 };

    pub const SETBE: Opcode = Opcode { number: 106 };

    pub const SETA: Opcode = Opcode { number: 107 };

    pub const SETS: Opcode = Opcode { number: 108 };

    pub const SETNS: Opcode = Opcode { number: 109 };

    pub const SETP: Opcode = Opcode { number: 110 };

    pub const SETNP: Opcode = Opcode { number: 111 };

    pub const SETL: Opcode = Opcode { number: 112 };

    pub const SETGE: Opcode = Opcode { number: 113 };

    pub const SETLE: Opcode = Opcode { number: 114 };

    pub const SETG: Opcode = Opcode { number: 115 };

    pub const CPUID: Opcode = Opcode { number: 116 };

    pub const RSM: Opcode = Opcode { number: 117 };

    pub const BT: Opcode = Opcode { number: 118 };

    pub const BTS: Opcode = Opcode { number: 119 };

    pub const BTR: Opcode = Opcode { number: 120 };

    pub const BTC: Opcode = Opcode { number: 121 };

    pub const SHLD: Opcode = Opcode { number: 122 };

    pub const SHRD: Opcode = Opcode { number: 123 };

    pub const UD1: Opcode = Opcode { number: 124 };

    pub const CMPXCHG: Opcode = Opcode { number: 125 };

    pub const XADD: Opcode = Opcode { number: 126 };

    pub const LSS: Opcode = Opcode { number: 127 };

    pub const LFS: Opcode = Opcode { number: 128 };

    pub const LGS: Opcode = Opcode { number: 129 };

    pub const MOVZX: Opcode = Opcode { number: 130 };

    pub const MOVSX: Opcode = Opcode { number: 131 };

    pub const BSF: Opcode = Opcode { number: 132 };

    pub const BSR: Opcode = Opcode { number: 133 };

    pub const BSWAP: Opcode = Opcode { number: 134 };

    pub const UD0: Opcode = Opcode { number: 135 };

    pub const PUNPCKLBW: Opcode = Opcode { number: 136 };

    pub const PUNPCKLWD: Opcode = Opcode { number: 137 };

    pub const PUNPCKLDQ: Opcode = Opcode { number: 138 };

    pub const PACKSSWB: Opcode = Opcode { number: 139 };

    pub const PCMPGTB: Opcode = Opcode { number: 140 };

    pub const PCMPGTW: Opcode = Opcode { number: 141 };

    pub const PCMPGTD: Opcode = Opcode { number: 142 };

    pub const PACKUSWB: Opcode = Opcode { number: 143 };

    pub const PUNPCKHBW: Opcode = Opcode { number: 144 };

    pub const PUNPCKHWD: Opcode = Opcode { number: 145 };

    pub const PUNPCKHDQ: Opcode = Opcode { number: 146 };

    pub const PACKSSDW: Opcode = Opcode { number: 147 };

    pub const PCMPEQB: Opcode = Opcode { number: 148 };

    pub const PCMPEQW: Opcode = Opcode { number: 149 };

    pub const PCMPEQD: Opcode = Opcode { number: 150 };

    pub const PSRLW: Opcode = Opcode { number: 151 };

    pub const PSRLD: Opcode = Opcode { number: 152 };

    pub const PSRLQ: Opcode = Opcode { number: 153 };

    pub const PADDQ: Opcode = Opcode { number: 154 };

    pub const PMULLW: Opcode = Opcode { number: 155 };

    pub const PSUBUSB: Opcode = Opcode { number: 156 };

    pub const PSUBUSW: Opcode = Opcode { number: 157 };

    pub const PMINUB: Opcode = Opcode { number: 158 };

    pub const PAND: Opcode = Opcode { number: 159 };

    pub const PADDUSB: Opcode = Opcode { number: 160 };

    pub const PADDUSW: Opcode = Opcode { number: 161 };

    pub const PMAXUB: Opcode = Opcode { number: 162 };

    pub const PANDN: Opcode = Opcode { number: 163 };

    pub const PAVGB: Opcode = Opcode { number: 164 };

    pub const PSRAW: Opcode = Opcode { number: 165 };

    pub const PSRAD: Opcode = Opcode { number: 166 };

    pub const PAVGW: Opcode = Opcode { number: 167 };

    pub const PMULHUW: Opcode = Opcode { number: 168 };

    pub const PMULHW: Opcode = Opcode { number: 169 };

    pub const PSUBSB: Opcode = Opcode { number: 170 };

    pub const PSUBSW: Opcode = Opcode { number: 171 };

    pub const PMINSW: Opcode = Opcode { number: 172 };

    pub const POR: Opcode = Opcode { number: 173 };

    pub const PADDSB: Opcode = Opcode { number: 174 };

    pub const PADDSW: Opcode = Opcode { number: 175 };

    pub const PMAXSW: Opcode = Opcode { number: 176 };

    pub const PXOR: Opcode = Opcode { number: 177 };

    pub const PSLLW: Opcode = Opcode { number: 178 };

    pub const PSLLD: Opcode = Opcode { number: 179 };

    pub const PSLLQ: Opcode = Opcode { number: 180 };

    pub const PMULUDQ: Opcode = Opcode { number: 181 };

    pub const PMADDWD: Opcode = Opcode { number: 182 };

    pub const PSADBW: Opcode = Opcode { number: 183 };

    pub const PSUBB: Opcode = Opcode { number: 184 };

    pub const PSUBW: Opcode = Opcode { number: 185 };

    pub const PSUBD: Opcode = Opcode { number: 186 };

    pub const PSUBQ: Opcode = Opcode { number: 187 };

    pub const PADDB: Opcode = Opcode { number: 188 };

    pub const PADDW: Opcode = Opcode { number: 189 };

    pub const PADDD: Opcode = Opcode { number: 190 };

    pub const MOVUPS: Opcode = Opcode { number: 191 };

    pub const UNPCKLPS: Opcode = Opcode { number: 192 };

    pub const UNPCKHPS: Opcode = Opcode { number: 193 };

    pub const MOVAPS: Opcode = Opcode { number: 194 };

    pub const MOVLPS: Opcode = Opcode { number: 195 };

    pub const MOVHPS: Opcode = Opcode { number: 196 };

    pub const MOVNTPS: Opcode = Opcode { number: 197 };

    pub const CVTPI2PS: Opcode = Opcode { number: 198 };

    pub const CVTTPS2PI: Opcode = Opcode { number: 199 };

    pub const CVTPS2PI: Opcode = Opcode { number: 200 };

    pub const UCOMISS: Opcode = Opcode { number: 201 };

    pub const COMISS: Opcode = Opcode { number: 202 };

    pub const CVTPS2PD: Opcode = Opcode { number: 203 };

    pub const MOVMSKPS: Opcode = Opcode { number: 204 };

    pub const SQRTPS: Opcode = Opcode { number: 205 };

    pub const RSQRTPS: Opcode = Opcode { number: 206 };

    pub const RCPPS: Opcode = Opcode { number: 207 };

    pub const ANDPS: Opcode = Opcode { number: 208 };

    pub const ANDNPS: Opcode = Opcode { number: 209 };

    pub const ORPS: Opcode = Opcode { number: 210 };

    pub const XORPS: Opcode = Opcode { number: 211 };

    pub const ADDPS: Opcode = Opcode { number: 212 };

    pub const MULPS: Opcode = Opcode { number: 213 };

    pub const CVTDQ2PS: Opcode = Opcode { number: 214 };

    pub const SUBPS: Opcode = Opcode { number: 215 };

    pub const MINPS: Opcode = Opcode { number: 216 };

    pub const DIVPS: Opcode = Opcode { number: 217 };

    pub const MAXPS: Opcode = Opcode { number: 218 };

    pub const MOVD: Opcode = Opcode { number: 219 };

    pub const MOVQ: Opcode = Opcode { number: 220 };

    pub const PSHUFW: Opcode = Opcode { number: 221 };

    pub const EMMS: Opcode = Opcode { number: 222 };

    pub const VMREAD: Opcode = Opcode { number: 223 };

    pub const VMWRITE: Opcode = Opcode { number: 224 };

    pub const CMPPS: Opcode = Opcode { number: 225 };

    pub const SHUFPS: Opcode = Opcode { number: 226 };

    pub const MOVNTI: Opcode = Opcode { number: 227 };

    pub const PINSRW: Opcode = Opcode { number: 228 };

    pub const PEXTRW: Opcode = Opcode { number: 229 };

    pub const PMOVMSKB: Opcode = Opcode { number: 230 };

    pub const MOVNTQ: Opcode = Opcode { number: 231 };

    pub const MASKMOVQ: Opcode = Opcode { number: 232 };

    pub const MOVUPD: Opcode = Opcode { number: 233 };

    pub const UNPCKLPD: Opcode = Opcode { number: 234 };

    pub const UNPCKHPD: Opcode = Opcode { number: 235 };

    pub const MOVAPD: Opcode = Opcode { number: 236 };

    pub const MOVLPD: Opcode = Opcode { number: 237 };

    pub const MOVHPD: Opcode = Opcode { number: 238 };

    pub const UCOMISD: Opcode = Opcode { number: 239 };

    pub const COMISD: Opcode = Opcode { number: 240 };

    pub const MOVNTPD: Opcode = Opcode { number: 241 };

    pub const MOVNTDQ: Opcode = Opcode { number: 242 };

    pub const CVTPI2PD: Opcode = Opcode { number: 243 };

    pub const CVTTPD2PI: Opcode = Opcode { number: 244 };

    pub const CVTPD2PI: Opcode = Opcode { number: 245 };

    pub const MOVMSKPD: Opcode = Opcode { number: 246 };

    pub const SQRTPD: Opcode = Opcode { number: 247 };

    pub const ANDPD: Opcode = Opcode { number: 248 };

    pub const ANDNPD: Opcode = Opcode { number: 249 };

    pub const ORPD: Opcode = Opcode { number: 250 };

    pub const XORPD: Opcode = Opcode { number: 251 };

    pub const ADDPD: Opcode = Opcode { number: 252 };

    pub const MULPD: Opcode = Opcode { number: 253 };

    pub const CVTPD2PS: Opcode = Opcode { number: 254 };

    pub const CVTPS2DQ: Opcode = Opcode { number: 255 };

    pub const SUBPD: Opcode = Opcode { number: 256 };

    pub const MINPD: Opcode = Opcode { number: 257 };

    pub const DIVPD: Opcode = Opcode { number: 258 };

    pub const MAXPD: Opcode = Opcode { number: 259 };

    pub const PUNPCKLQDQ: Opcode = Opcode { number: 260 };

    pub const PUNPCKHQDQ: Opcode = Opcode { number: 261 };

    pub const MOVDQA: Opcode = Opcode { number: 262 };

    pub const HADDPD: Opcode = Opcode { number: 263 };

    pub const HSUBPD: Opcode = Opcode { number: 264 };

    pub const ADDSUBPD: Opcode = Opcode { number: 265 };

    pub const CVTTPD2DQ: Opcode = Opcode { number: 266 };

    pub const PSHUFD: Opcode = Opcode { number: 267 };

    pub const CMPPD: Opcode = Opcode { number: 268 };

    pub const SHUFPD: Opcode = Opcode { number: 269 };

    pub const EXTRQ: Opcode = Opcode { number: 270 };

    pub const MASKMOVDQU: Opcode = Opcode { number: 271 };

    pub const MOVSS: Opcode = Opcode { number: 272 };

    pub const SQRTSS: Opcode = Opcode { number: 273 };

    pub const RSQRTSS: Opcode = Opcode { number: 274 };

    pub const RCPSS: Opcode = Opcode { number: 275 };

    pub const ADDSS: Opcode = Opcode { number: 276 };

    pub const MULSS: Opcode = Opcode { number: 277 };

    pub const SUBSS: Opcode = Opcode { number: 278 };

    pub const MINSS: Opcode = Opcode { number: 279 };

    pub const DIVSS: Opcode = Opcode { number: 280 };

    pub const MAXSS: Opcode = Opcode { number: 281 };

    pub const MOVSLDUP: Opcode = Opcode { number: 282 };

    pub const MOVSHDUP: Opcode = Opcode { number: 283 };

    pub const CVTTPS2DQ: Opcode = Opcode { number: 284 };

    pub const MOVDQU: Opcode = Opcode { number: 285 };

    pub const CVTSI2SS: Opcode = Opcode { number: 286 };

    pub const MOVNTSS: Opcode = Opcode { number: 287 };

    pub const CVTTSS2SI: Opcode = Opcode { number: 288 };

    pub const CVTSS2SI: Opcode = Opcode { number: 289 };

    pub const CVTSS2SD: Opcode = Opcode { number: 290 };

    pub const CVTDQ2PD: Opcode = Opcode { number: 291 };

    pub const PSHUFHW: Opcode = Opcode { number: 292 };

    pub const CMPSS: Opcode = Opcode { number: 293 };

    pub const POPCNT: Opcode = Opcode { number: 294 };

    pub const TZCNT: Opcode = Opcode { number: 295 };

    pub const LZCNT: Opcode = Opcode { number: 296 };

    pub const MOVQ2DQ: Opcode = Opcode { number: 297 };

    pub const MOVSD: Opcode = Opcode { number: 298 };

    pub const SQRTSD: Opcode = Opcode { number: 299 };

    pub const ADDSD: Opcode = Opcode { number: 300 };

    pub const MULSD: Opcode = Opcode { number: 301 };

    pub const CVTSD2SS: Opcode = Opcode { number: 302 };

    pub const SUBSD: Opcode = Opcode { number: 303 };

    pub const MINSD: Opcode = Opcode { number: 304 };

    pub const DIVSD: Opcode = Opcode { number: 305 };

    pub const MAXSD: Opcode = Opcode { number: 306 };

    pub const MOVDDUP: Opcode = Opcode { number: 307 };

    pub const HADDPS: Opcode = Opcode { number: 308 };

    pub const HSUBPS: Opcode = Opcode { number: 309 };

    pub const ADDSUBPS: Opcode = Opcode { number: 310 };

    pub const CVTPD2DQ: Opcode = Opcode { number: 311 };

    pub const CVTSI2SD: Opcode = Opcode { number: 312 };

    pub const MOVNTSD: Opcode = Opcode { number: 313 };

    pub const CVTTSD2SI: Opcode = Opcode { number: 314 };

    pub const CVTSD2SI: Opcode = Opcode { number: 315 };

    pub const PSHUFLW: Opcode = Opcode { number: 316 };

    pub const CMPSD: Opcode = Opcode { number: 317 };

    pub const INSERTQ: Opcode = Opcode { number: 318 };

    pub const MOVDQ2Q: Opcode = Opcode { number: 319 };

    pub const LDDQU: Opcode = Opcode { number: 320 };

    pub const PSHUFB: Opcode = Opcode { number: 321 };

    pub const PHADDW: Opcode = Opcode { number: 322 };

    pub const PHADDD: Opcode = Opcode { number: 323 };

    pub const PHADDSW: Opcode = Opcode { number: 324 };

    pub const PMADDUBSW: Opcode = Opcode { number: 325 };

    pub const PHSUBW: Opcode = Opcode { number: 326 };

    pub const PHSUBD: Opcode = Opcode { number: 327 };

    pub const PHSUBSW: Opcode = Opcode { number: 328 };

    pub const PSIGNB: Opcode = Opcode { number: 329 };

    pub const PSIGNW: Opcode = Opcode { number: 330 };

    pub const PSIGND: Opcode = Opcode { number: 331 };

    pub const PMULHRSW: Opcode = Opcode { number: 332 };

    pub const PABSB: Opcode = Opcode { number: 333 };

    pub const PABSW: Opcode = Opcode { number: 334 };

    pub const PABSD: Opcode = Opcode { number: 335 };

    pub const MOVBE: Opcode = Opcode { number: 336 };

    pub const SHA1NEXTE: Opcode = Opcode { number: 337 };

    pub const SHA1MSG1: Opcode = Opcode { number: 338 };

    pub const SHA1MSG2: Opcode = Opcode { number: 339 };

    pub const SHA256RNDS2: Opcode = Opcode { number: 340 };

    pub const SHA256MSG1: Opcode = Opcode { number: 341 };

    pub const SHA256MSG2: Opcode = Opcode { number: 342 };

    pub const WRSS: Opcode = Opcode { number: 343 };

    pub const MOVDIRI: Opcode = Opcode { number: 344 };

    pub const PBLENDVB: Opcode = Opcode { number: 345 };

    pub const BLENDVPS: Opcode = Opcode { number: 346 };

    pub const BLENDVPD: Opcode = Opcode { number: 347 };

    pub const PTEST: Opcode = Opcode { number: 348 };

    pub const PMULDQ: Opcode = Opcode { number: 349 };

    pub const PCMPEQQ: Opcode = Opcode { number: 350 };

    pub const PACKUSDW: Opcode = Opcode { number: 351 };

    pub const PCMPGTQ: Opcode = Opcode { number: 352 };

    pub const PMINSB: Opcode = Opcode { number: 353 };

    pub const PMINSD: Opcode = Opcode { number: 354 };

    pub const PMINUW: Opcode = Opcode { number: 355 };

    pub const PMINUD: Opcode = Opcode { number: 356 };

    pub const PMAXSB: Opcode = Opcode { number: 357 };

    pub const PMAXSD: Opcode = Opcode { number: 358 };

    pub const PMAXUW: Opcode = Opcode { number: 359 };

    pub const PMAXUD: Opcode = Opcode { number: 360 };

    pub const PMULLD: Opcode = Opcode { number: 361 };

    pub const PHMINPOSUW: Opcode = Opcode { number: 362 };

    pub const GF2P8MULB: Opcode = Opcode { number: 363 };

    pub const AESIMC: Opcode = Opcode { number: 364 };

    pub const AESENC: Opcode = Opcode { number: 365 };

    pub const AESENCLAST: Opcode = Opcode { number: 366 };

    pub const AESDEC: Opcode = Opcode { number: 367 };

    pub const AESDECLAST: Opcode = Opcode { number: 368 };

    pub const PMOVSXBW: Opcode = Opcode { number: 369 };

    pub const PMOVSXBD: Opcode = Opcode { number: 370 };

    pub const PMOVSXBQ: Opcode = Opcode { number: 371 };

    pub const PMOVSXWD: Opcode = Opcode { number: 372 };

    pub const PMOVSXWQ: Opcode = Opcode { number: 373 };

    pub const PMOVSXDQ: Opcode = Opcode { number: 374 };

    pub const PMOVZXBW: Opcode = Opcode { number: 375 };

    pub const PMOVZXBD: Opcode = Opcode { number: 376 };

    pub const PMOVZXBQ: Opcode = Opcode { number: 377 };

    pub const PMOVZXWD: Opcode = Opcode { number: 378 };

    pub const PMOVZXWQ: Opcode = Opcode { number: 379 };

    pub const PMOVZXDQ: Opcode = Opcode { number: 380 };

    pub const MOVNTDQA: Opcode = Opcode { number: 381 };

    pub const INVEPT: Opcode = Opcode { number: 382 };

    pub const INVVPID: Opcode = Opcode { number: 383 };

    pub const INVPCID: Opcode = Opcode { number: 384 };

    pub const WRUSS: Opcode = Opcode { number: 385 };

    pub const ADCX: Opcode = Opcode { number: 386 };

    pub const MOVDIR64B: Opcode = Opcode { number: 387 };

    pub const ADOX: Opcode = Opcode { number: 388 };

    pub const ENQCMDS: Opcode = Opcode { number: 389 };

    pub const CRC32: Opcode = Opcode { number: 390 };

    pub const ENQCMD: Opcode = Opcode { number: 391 };

    pub const PALIGNR: Opcode = Opcode { number: 392 };

    pub const SHA1RNDS4: Opcode = Opcode { number: 393 };

    pub const ROUNDPS: Opcode = Opcode { number: 394 };

    pub const ROUNDPD: Opcode = Opcode { number: 395 };

    pub const ROUNDSS: Opcode = Opcode { number: 396 };

    pub const ROUNDSD: Opcode = Opcode { number: 397 };

    pub const BLENDPS: Opcode = Opcode { number: 398 };

    pub const BLENDPD: Opcode = Opcode { number: 399 };

    pub const PBLENDW: Opcode = Opcode { number: 400 };

    pub const DPPS: Opcode = Opcode { number: 401 };

    pub const DPPD: Opcode = Opcode { number: 402 };

    pub const MPSADBW: Opcode = Opcode { number: 403 };

    pub const PCLMULQDQ: Opcode = Opcode { number: 404 };

    pub const PCMPESTRM: Opcode = Opcode { number: 405 };

    pub const PCMPESTRI: Opcode = Opcode { number: 406 };

    pub const PCMPISTRM: Opcode = Opcode { number: 407 };

    pub const PCMPISTRI: Opcode = Opcode { number: 408 };

    pub const PEXTRB: Opcode = Opcode { number: 409 };

    pub const EXTRACTPS: Opcode = Opcode { number: 410 };

    pub const PEXTRD: Opcode = Opcode { number: 411 };

    pub const PINSRB: Opcode = Opcode { number: 412 };

    pub const INSERTPS: Opcode = Opcode { number: 413 };

    pub const PINSRD: Opcode = Opcode { number: 414 };

    pub const GF2P8AFFINEQB: Opcode = Opcode { number: 415 };

    pub const GF2P8AFFINEINVQB: Opcode = Opcode { number: 416 };

    pub const AESKEYGENASSIST: Opcode = Opcode { number: 417 };

    pub const AESDEC128KL: Opcode = Opcode { number: 418 };

    pub const AESDEC256KL: Opcode = Opcode { number: 419 };

    pub const AESDECWIDE128KL: Opcode = Opcode { number: 420 };

    pub const AESDECWIDE256KL: Opcode = Opcode { number: 421 };

    pub const AESENC128KL: Opcode = Opcode { number: 422 };

    pub const AESENC256KL: Opcode = Opcode { number: 423 };

    pub const AESENCWIDE128KL: Opcode = Opcode { number: 424 };

    pub const AESENCWIDE256KL: Opcode = Opcode { number: 425 };

    pub const CALLF: Opcode = Opcode { number: 426 };

    pub const CBW: Opcode = Opcode { number: 427 };

    pub const CDQ: Opcode = Opcode { number: 428 };

    pub const CDQE: Opcode = Opcode { number: 429 };

    pub const CLAC: Opcode = Opcode { number: 430 };

    pub const CLFLUSH: Opcode = Opcode { number: 431 };

    pub const CLFLUSHOPT: Opcode = Opcode { number: 432 };

    pub const CLGI: Opcode = Opcode { number: 433 };

    pub const CLRSSBSY: Opcode = Opcode { number: 434 };

    pub const CLUI: Opcode = Opcode { number: 435 };

    pub const CLWB: Opcode = Opcode { number: 436 };

    pub const CLZERO: Opcode = Opcode { number: 437 };

    pub const CMPXCHG16B: Opcode = Opcode { number: 438 };

    pub const CMPXCHG8B: Opcode = Opcode { number: 439 };

    pub const CQO: Opcode = Opcode { number: 440 };

    pub const CWD: Opcode = Opcode { number: 441 };

    pub const CWDE: Opcode = Opcode { number: 442 };

    pub const DEC: Opcode = Opcode { number: 443 };

    pub const DIV: Opcode = Opcode { number: 444 };

    pub const ENCLS: Opcode = Opcode { number: 445 };

    pub const ENCLU: Opcode = Opcode { number: 446 };

    pub const ENCLV: Opcode = Opcode { number: 447 };

    pub const ENCODEKEY128: Opcode = Opcode { number: 448 };

    pub const ENCODEKEY256: Opcode = Opcode { number: 449 };

    pub const ENDBR32: Opcode = Opcode { number: 450 };

    pub const ENDBR64: Opcode = Opcode { number: 451 };

    pub const F2XM1: Opcode = Opcode { number: 452 };

    pub const FABS: Opcode = Opcode { number: 453 };

    pub const FADD: Opcode = Opcode { number: 454 };

    pub const FADDP: Opcode = Opcode { number: 455 };

    pub const FBLD: Opcode = Opcode { number: 456 };

    pub const FBSTP: Opcode = Opcode { number: 457 };

    pub const FCHS: Opcode = Opcode { number: 458 };

    pub const FCMOVB: Opcode = Opcode { number: 459 };

    pub const FCMOVBE: Opcode = Opcode { number: 460 };

    pub const FCMOVE: Opcode = Opcode { number: 461 };

    pub const FCMOVNB: Opcode = Opcode { number: 462 };

    pub const FCMOVNBE: Opcode = Opcode { number: 463 };

    pub const FCMOVNE: Opcode = Opcode { number: 464 };

    pub const FCMOVNU: Opcode = Opcode { number: 465 };

    pub const FCMOVU: Opcode = Opcode { number: 466 };

    pub const FCOM: Opcode = Opcode { number: 467 };

    pub const FCOMI: Opcode = Opcode { number: 468 };

    pub const FCOMIP: Opcode = Opcode { number: 469 };

    pub const FCOMP: Opcode = Opcode { number: 470 };

    pub const FCOMPP: Opcode = Opcode { number: 471 };

    pub const FCOS: Opcode = Opcode { number: 472 };

    pub const FDECSTP: Opcode = Opcode { number: 473 };

    pub const FDISI8087_NOP: Opcode = Opcode { number: 474 };

    pub const FDIV: Opcode = Opcode { number: 475 };

    pub const FDIVP: Opcode = Opcode { number: 476 };

    pub const FDIVR: Opcode = Opcode { number: 477 };

    pub const FDIVRP: Opcode = Opcode { number: 478 };

    pub const FENI8087_NOP: Opcode = Opcode { number: 479 };

    pub const FFREE: Opcode = Opcode { number: 480 };

    pub const FFREEP: Opcode = Opcode { number: 481 };

    pub const FIADD: Opcode = Opcode { number: 482 };

    pub const FICOM: Opcode = Opcode { number: 483 };

    pub const FICOMP: Opcode = Opcode { number: 484 };

    pub const FIDIV: Opcode = Opcode { number: 485 };

    pub const FIDIVR: Opcode = Opcode { number: 486 };

    pub const FILD: Opcode = Opcode { number: 487 };

    pub const FIMUL: Opcode = Opcode { number: 488 };

    pub const FINCSTP: Opcode = Opcode { number: 489 };

    pub const FIST: Opcode = Opcode { number: 490 };

    pub const FISTP: Opcode = Opcode { number: 491 };

    pub const FISTTP: Opcode = Opcode { number: 492 };

    pub const FISUB: Opcode = Opcode { number: 493 };

    pub const FISUBR: Opcode = Opcode { number: 494 };

    pub const FLD: Opcode = Opcode { number: 495 };

    pub const FLD1: Opcode = Opcode { number: 496 };

    pub const FLDCW: Opcode = Opcode { number: 497 };

    pub const FLDENV: Opcode = Opcode { number: 498 };

    pub const FLDL2E: Opcode = Opcode { number: 499 };

    pub const FLDL2T: Opcode = Opcode { number: 500 };

    pub const FLDLG2: Opcode = Opcode { number: 501 };

    pub const FLDLN2: Opcode = Opcode { number: 502 };

    pub const FLDPI: Opcode = Opcode { number: 503 };

    pub const FLDZ: Opcode = Opcode { number: 504 };

    pub const FMUL: Opcode = Opcode { number: 505 };

    pub const FMULP: Opcode = Opcode { number: 506 };

    pub const FNCLEX: Opcode = Opcode { number: 507 };

    pub const FNINIT: Opcode = Opcode { number: 508 };

    pub const FNOP: Opcode = Opcode { number: 509 };

    pub const FNSAVE: Opcode = Opcode { number: 510 };

    pub const FNSTCW: Opcode = Opcode { number: 511 };

    pub const FNSTENV: Opcode = Opcode { number: 512 };

    pub const FNSTSW: Opcode = Opcode { number: 513 };

    pub const FPATAN: Opcode = Opcode { number: 514 };

    pub const FPREM: Opcode = Opcode { number: 515 };

    pub const FPREM1: Opcode = Opcode { number: 516 };

    pub const FPTAN: Opcode = Opcode { number: 517 };

    pub const FRNDINT: Opcode = Opcode { number: 518 };

    pub const FRSTOR: Opcode = Opcode { number: 519 };

    pub const FSCALE: Opcode = Opcode { number: 520 };

    pub const FSETPM287_NOP: Opcode = Opcode { number: 521 };

    pub const FSIN: Opcode = Opcode { number: 522 };

    pub const FSINCOS: Opcode = Opcode { number: 523 };

    pub const FSQRT: Opcode = Opcode { number: 524 };

    pub const FST: Opcode = Opcode { number: 525 };

    pub const FSTP: Opcode = Opcode { number: 526 };

    pub const FSTPNCE: Opcode = Opcode { number: 527 };

    pub const FSUB: Opcode = Opcode { number: 528 };

    pub const FSUBP: Opcode = Opcode { number: 529 };

    pub const FSUBR: Opcode = Opcode { number: 530 };

    pub const FSUBRP: Opcode = Opcode { number: 531 };

    pub const FTST: Opcode = Opcode { number: 532 };

    pub const FUCOM: Opcode = Opcode { number: 533 };

    pub const FUCOMI: Opcode = Opcode { number: 534 };

    pub const FUCOMIP: Opcode = Opcode { number: 535 };

    pub const FUCOMP: Opcode = Opcode { number: 536 };

    pub const FUCOMPP: Opcode = Opcode { number: 537 };

    pub const FXAM: Opcode = Opcode { number: 538 };

    pub const FXCH: Opcode = Opcode { number: 539 };

    pub const FXRSTOR: Opcode = Opcode { number: 540 };

    pub const FXSAVE: Opcode = Opcode { number: 541 };

    pub const FXTRACT: Opcode = Opcode { number: 542 };

    pub const FYL2X: Opcode = Opcode { number: 543 };

    pub const FYL2XP1: Opcode = Opcode { number: 544 };

    pub const HRESET: Opcode = Opcode { number: 545 };

    pub const IDIV: Opcode = Opcode { number: 546 };

    pub const INC: Opcode = Opcode { number: 547 };

    pub const INCSSP: Opcode = Opcode { number: 548 };

    pub const INVLPG: Opcode = Opcode { number: 549 };

    pub const INVLPGA: Opcode = Opcode { number: 550 };

    pub const INVLPGB: Opcode = Opcode { number: 551 };

    pub const IRET: Opcode = Opcode { number: 552 };

    pub const IRETD: Opcode = Opcode { number: 553 };

    pub const IRETQ: Opcode = Opcode { number: 554 };

    pub const JECXZ: Opcode = Opcode { number: 555 };

    pub const JMPF: Opcode = Opcode { number: 556 };

    pub const LDMXCSR: Opcode = Opcode { number: 557 };

    pub const LFENCE: Opcode = Opcode { number: 558 };

    pub const LGDT: Opcode = Opcode { number: 559 };

    pub const LIDT: Opcode = Opcode { number: 560 };

    pub const LLDT: Opcode = Opcode { number: 561 };

    pub const LMSW: Opcode = Opcode { number: 562 };

    pub const LOADIWKEY: Opcode = Opcode { number: 563 };

    pub const LTR: Opcode = Opcode { number: 564 };

    pub const MFENCE: Opcode = Opcode { number: 565 };

    pub const MONITOR: Opcode = Opcode { number: 566 };

    pub const MONITORX: Opcode = Opcode { number: 567 };

    pub const MOVHLPS: Opcode = Opcode { number: 568 };

    pub const MOVLHPS: Opcode = Opcode { number: 569 };

    pub const MUL: Opcode = Opcode { number: 570 };

    pub const MWAIT: Opcode = Opcode { number: 571 };

    pub const MWAITX: Opcode = Opcode { number: 572 };

    pub const NEG: Opcode = Opcode { number: 573 };

    pub const NOT: Opcode = Opcode { number: 574 };

    pub const PAVGUSB: Opcode = Opcode { number: 575 };

    pub const PCONFIG: Opcode = Opcode { number: 576 };

    pub const PEXTRQ: Opcode = Opcode { number: 577 };

    pub const PF2ID: Opcode = Opcode { number: 578 };

    pub const PF2IW: Opcode = Opcode { number: 579 };

    pub const PFACC: Opcode = Opcode { number: 580 };

    pub const PFADD: Opcode = Opcode { number: 581 };

    pub const PFCMPEQ: Opcode = Opcode { number: 582 };

    pub const PFCMPGE: Opcode = Opcode { number: 583 };

    pub const PFCMPGT: Opcode = Opcode { number: 584 };

    pub const PFMAX: Opcode = Opcode { number: 585 };

    pub const PFMIN: Opcode = Opcode { number: 586 };

    pub const PFMUL: Opcode = Opcode { number: 587 };

    pub const PFNACC: Opcode = Opcode { number: 588 };

    pub const PFPNACC: Opcode = Opcode { number: 589 };

    pub const PFRCP: Opcode = Opcode { number: 590 };

    pub const PFRCPIT1: Opcode = Opcode { number: 591 };

    pub const PFRCPIT2: Opcode = Opcode { number: 592 };

    pub const PFRSQIT1: Opcode = Opcode { number: 593 };

    pub const PFRSQRT: Opcode = Opcode { number: 594 };

    pub const PFSUB: Opcode = Opcode { number: 595 };

    pub const PFSUBR: Opcode = Opcode { number: 596 };

    pub const PI2FD: Opcode = Opcode { number: 597 };

    pub const PI2FW: Opcode = Opcode { number: 598 };

    pub const PINSRQ: Opcode = Opcode { number: 599 };

    pub const PMULHRW: Opcode = Opcode { number: 600 };

    pub const PREFETCH0: Opcode = Opcode { number: 601 };

    pub const PREFETCH1: Opcode = Opcode { number: 602 };

    pub const PREFETCH2: Opcode = Opcode { number: 603 };

    pub const PREFETCHNTA: Opcode = Opcode { number: 604 };

    pub const PREFETCHW: Opcode = Opcode { number: 605 };

    pub const PSLLDQ: Opcode = Opcode { number: 606 };

    pub const PSMASH: Opcode = Opcode { number: 607 };

    pub const PSRLDQ: Opcode = Opcode { number: 608 };

    pub const PSWAPD: Opcode = Opcode { number: 609 };

    pub const PTWRITE: Opcode = Opcode { number: 610 };

    pub const PVALIDATE: Opcode = Opcode { number: 611 };

    pub const RCL: Opcode = Opcode { number: 612 };

    pub const RCR: Opcode = Opcode { number: 613 };

    pub const RDFSBASE: Opcode = Opcode { number: 614 };

    pub const RDGSBASE: Opcode = Opcode { number: 615 };

    pub const RDPID: Opcode = Opcode { number: 616 };

    pub const RDPKRU: Opcode = Opcode { number: 617 };

    pub const RDPRU: Opcode = Opcode { number: 618 };

    pub const RDRAND: Opcode = Opcode { number: 619 };

    pub const RDSEED: Opcode = Opcode { number: 620 };

    pub const RDTSCP: Opcode = Opcode { number: 621 };

    pub const RMPADJUST: Opcode = Opcode { number: 622 };

    pub const RMPUPDATE: Opcode = Opcode { number: 623 };

    pub const ROL: Opcode = Opcode { number: 624 };

    pub const ROR: Opcode = Opcode { number: 625 };

    pub const RSTORSSP: Opcode = Opcode { number: 626 };

    pub const SAL: Opcode = Opcode { number: 627 };

    pub const SAR: Opcode = Opcode { number: 628 };

    pub const SAVEPREVSSP: Opcode = Opcode { number: 629 };

    pub const SEAMCALL: Opcode = Opcode { number: 630 };

    pub const SEAMOPS: Opcode = Opcode { number: 631 };

    pub const SEAMRET: Opcode = Opcode { number: 632 };

    pub const SENDUIPI: Opcode = Opcode { number: 633 };

    pub const SETSSBSY: Opcode = Opcode { number: 634 };

    pub const SFENCE: Opcode = Opcode { number: 635 };

    pub const SGDT: Opcode = Opcode { number: 636 };

    pub const SHL: Opcode = Opcode { number: 637 };

    pub const SHR: Opcode = Opcode { number: 638 };

    pub const SIDT: Opcode = Opcode { number: 639 };

    pub const SKINIT: Opcode = Opcode { number: 640 };

    pub const SLDT: Opcode = Opcode { number: 641 };

    pub const SMSW: Opcode = Opcode { number: 642 };

    pub const STAC: Opcode = Opcode { number: 643 };

    pub const STGI: Opcode = Opcode { number: 644 };

    pub const STMXCSR: Opcode = Opcode { number: 645 };

    pub const STR: Opcode = Opcode { number: 646 };

    pub const STUI: Opcode = Opcode { number: 647 };

    pub const SWAPGS: Opcode = Opcode { number: 648 };

    pub const TDCALL: Opcode = Opcode { number: 649 };

    pub const TESTUI: Opcode = Opcode { number: 650 };

    pub const TLBSYNC: Opcode = Opcode { number: 651 };

    pub const TPAUSE: Opcode = Opcode { number: 652 };

    pub const UIRET: Opcode = Opcode { number: 653 };

    pub const UMONITOR: Opcode = Opcode { number: 654 };

    pub const UMWAIT: Opcode = Opcode { number: 655 };

    pub const VERR: Opcode = Opcode { number: 656 };

    pub const VERW: Opcode = Opcode { number: 657 };

    pub const VMCALL: Opcode = Opcode { number: 658 };

    pub const VMCLEAR: Opcode = Opcode { number: 659 };

    pub const VMFUNC: Opcode = Opcode { number: 660 };

    pub const VMLAUNCH: Opcode = Opcode { number: 661 };

    pub const VMLOAD: Opcode = Opcode { number: 662 };

    pub const VMMCALL: Opcode = Opcode { number: 663 };

    pub const VMPTRLD: Opcode = Opcode { number: 664 };

    pub const VMPTRST: Opcode = Opcode { number: 665 };

    pub const VMRESUME: Opcode = Opcode { number: 666 };

    pub const VMRUN: Opcode = Opcode { number: 667 };

    pub const VMSAVE: Opcode = Opcode { number: 668 };

    pub const VMXOFF: Opcode = Opcode { number: 669 };

    pub const VMXON: Opcode = Opcode { number: 670 };

    pub const WRFSBASE: Opcode = Opcode { number: 671 };

    pub const WRGSBASE: Opcode = Opcode { number: 672 };

    pub const WRPKRU: Opcode = Opcode { number: 673 };

    pub const XABORT: Opcode = Opcode { number: 674 };

    pub const XBEGIN: Opcode = Opcode { number: 675 };

    pub const XEND: Opcode = Opcode { number: 676 };

    pub const XGETBV: Opcode = Opcode { number: 677 };

    pub const XRESLDTRK: Opcode = Opcode { number: 678 };

    pub const XRSTOR: Opcode = Opcode { number: 679 };

    pub const XRSTORS: Opcode = Opcode { number: 680 };

    pub const XRSTORS64: Opcode = Opcode { number: 681 };

    pub const XSAVE: Opcode = Opcode { number: 682 };

    pub const XSAVEC: Opcode = Opcode { number: 683 };

    pub const XSAVEC64: Opcode = Opcode { number: 684 };

    pub const XSAVEOPT: Opcode = Opcode { number: 685 };

    pub const XSAVES: Opcode = Opcode { number: 686 };

    pub const XSAVES64: Opcode = Opcode { number: 687 };

    pub const XSETBV: Opcode = Opcode { number: 688 };

    pub const XSUSLDTRK: Opcode = Opcode { number: 689 };

    pub const XTEST: Opcode = Opcode { number: 690 };

    /// How many names there are, `Invalid` among them: the size of a table by `number`.
    pub const COUNT: usize = 691;
}

/// How many constants a table has. The last one has what is left.
pub(crate) const PART: u16 = 128;

/// Constants, each by its number and its name. One word yields both, so a constant can't have another's name.
macro_rules! named {
    ($($name:ident)*) => {
        [$((Opcode::$name.number, stringify!($name))),*]
    };
}

/// The constants of the numbers from 0 on, by their names.
pub(crate) const NAMED_0: [(u16, &str); 128] = named![
    Invalid ADD OR ADC SBB AND SUB XOR CMP PUSH POP MOVSXD IMUL INS OUTS JO JNO JB JNB JZ JNZ JNA JA
    JS JNS JP JNP JL JGE JLE JG TEST XCHG MOV LEA WAIT PUSHF POPF SAHF LAHF MOVS CMPS STOS LODS SCAS
    RETURN ENTER LEAVE RETF INT XLAT LOOPNZ LOOPZ LOOP JMP JRCXZ IN OUT CALL HLT CMC CLC STC CLI STI
    CLD STD LAR LSL SYSCALL CLTS SYSRET INVD WBINVD UD2 FEMMS NOP WRMSR RDTSC RDMSR RDPMC SYSENTER
    SYSEXIT GETSEC CMOVO CMOVNO CMOVB CMOVNB CMOVZ CMOVNZ CMOVNA CMOVA CMOVS CMOVNS CMOVP CMOVNP
    CMOVL CMOVGE CMOVLE CMOVG SETO SETNO SETB SETAE SETZ SETNZ SETBE SETA SETS SETNS SETP SETNP SETL
    SETGE SETLE SETG CPUID RSM BT BTS BTR BTC SHLD SHRD UD1 CMPXCHG XADD LSS
];

/// The constants of the numbers from 128 on, by their names.
pub(crate) const NAMED_1: [(u16, &str); 128] = named![
    LFS LGS MOVZX MOVSX BSF BSR BSWAP UD0 PUNPCKLBW PUNPCKLWD PUNPCKLDQ PACKSSWB PCMPGTB PCMPGTW
    PCMPGTD PACKUSWB PUNPCKHBW PUNPCKHWD PUNPCKHDQ PACKSSDW PCMPEQB PCMPEQW PCMPEQD PSRLW PSRLD
    PSRLQ PADDQ PMULLW PSUBUSB PSUBUSW PMINUB PAND PADDUSB PADDUSW PMAXUB PANDN PAVGB PSRAW PSRAD
    PAVGW PMULHUW PMULHW PSUBSB PSUBSW PMINSW POR PADDSB PADDSW PMAXSW PXOR PSLLW PSLLD PSLLQ
    PMULUDQ PMADDWD PSADBW PSUBB PSUBW PSUBD PSUBQ PADDB PADDW PADDD MOVUPS UNPCKLPS UNPCKHPS MOVAPS
    MOVLPS MOVHPS MOVNTPS CVTPI2PS CVTTPS2PI CVTPS2PI UCOMISS COMISS CVTPS2PD MOVMSKPS SQRTPS
    RSQRTPS RCPPS ANDPS ANDNPS ORPS XORPS ADDPS MULPS CVTDQ2PS SUBPS MINPS DIVPS MAXPS MOVD MOVQ
    PSHUFW EMMS VMREAD VMWRITE CMPPS SHUFPS MOVNTI PINSRW PEXTRW PMOVMSKB MOVNTQ MASKMOVQ MOVUPD
    UNPCKLPD UNPCKHPD MOVAPD MOVLPD MOVHPD UCOMISD COMISD MOVNTPD MOVNTDQ CVTPI2PD CVTTPD2PI
    CVTPD2PI MOVMSKPD SQRTPD ANDPD ANDNPD ORPD XORPD ADDPD MULPD CVTPD2PS CVTPS2DQ
];

/// The constants of the numbers from 256 on, by their names.
pub(crate) const NAMED_2: [(u16, &str); 128] = named![
    SUBPD MINPD DIVPD MAXPD PUNPCKLQDQ PUNPCKHQDQ MOVDQA HADDPD HSUBPD ADDSUBPD CVTTPD2DQ PSHUFD
    CMPPD SHUFPD EXTRQ MASKMOVDQU MOVSS SQRTSS RSQRTSS RCPSS ADDSS MULSS SUBSS MINSS DIVSS MAXSS
    MOVSLDUP MOVSHDUP CVTTPS2DQ MOVDQU CVTSI2SS MOVNTSS CVTTSS2SI CVTSS2SI CVTSS2SD CVTDQ2PD PSHUFHW
    CMPSS POPCNT TZCNT LZCNT MOVQ2DQ MOVSD SQRTSD ADDSD MULSD CVTSD2SS SUBSD MINSD DIVSD MAXSD
    MOVDDUP HADDPS HSUBPS ADDSUBPS CVTPD2DQ CVTSI2SD MOVNTSD CVTTSD2SI CVTSD2SI PSHUFLW CMPSD
    INSERTQ MOVDQ2Q LDDQU PSHUFB PHADDW PHADDD PHADDSW PMADDUBSW PHSUBW PHSUBD PHSUBSW PSIGNB PSIGNW
    PSIGND PMULHRSW PABSB PABSW PABSD MOVBE SHA1NEXTE SHA1MSG1 SHA1MSG2 SHA256RNDS2 SHA256MSG1
    SHA256MSG2 WRSS MOVDIRI PBLENDVB BLENDVPS BLENDVPD PTEST PMULDQ PCMPEQQ PACKUSDW PCMPGTQ PMINSB
    PMINSD PMINUW PMINUD PMAXSB PMAXSD PMAXUW PMAXUD PMULLD PHMINPOSUW GF2P8MULB AESIMC AESENC
    AESENCLAST AESDEC AESDECLAST PMOVSXBW PMOVSXBD PMOVSXBQ PMOVSXWD PMOVSXWQ PMOVSXDQ PMOVZXBW
    PMOVZXBD PMOVZXBQ PMOVZXWD PMOVZXWQ PMOVZXDQ MOVNTDQA INVEPT INVVPID
];

/// The constants of the numbers from 384 on, by their names.
pub(crate) const NAMED_3: [(u16, &str); 128] = named![
    INVPCID WRUSS ADCX MOVDIR64B ADOX ENQCMDS CRC32 ENQCMD PALIGNR SHA1RNDS4 ROUNDPS ROUNDPD ROUNDSS
    ROUNDSD BLENDPS BLENDPD PBLENDW DPPS DPPD MPSADBW PCLMULQDQ PCMPESTRM PCMPESTRI PCMPISTRM
    PCMPISTRI PEXTRB EXTRACTPS PEXTRD PINSRB INSERTPS PINSRD GF2P8AFFINEQB GF2P8AFFINEINVQB
    AESKEYGENASSIST AESDEC128KL AESDEC256KL AESDECWIDE128KL AESDECWIDE256KL AESENC128KL AESENC256KL
    AESENCWIDE128KL AESENCWIDE256KL CALLF CBW CDQ CDQE CLAC CLFLUSH CLFLUSHOPT CLGI CLRSSBSY CLUI
    CLWB CLZERO CMPXCHG16B CMPXCHG8B CQO CWD CWDE DEC DIV ENCLS ENCLU ENCLV ENCODEKEY128
    ENCODEKEY256 ENDBR32 ENDBR64 F2XM1 FABS FADD FADDP FBLD FBSTP FCHS FCMOVB FCMOVBE FCMOVE FCMOVNB
    FCMOVNBE FCMOVNE FCMOVNU FCMOVU FCOM FCOMI FCOMIP FCOMP FCOMPP FCOS FDECSTP FDISI8087_NOP FDIV
    FDIVP FDIVR FDIVRP FENI8087_NOP FFREE FFREEP FIADD FICOM FICOMP FIDIV FIDIVR FILD FIMUL FINCSTP
    FIST FISTP FISTTP FISUB FISUBR FLD FLD1 FLDCW FLDENV FLDL2E FLDL2T FLDLG2 FLDLN2 FLDPI FLDZ FMUL
    FMULP FNCLEX FNINIT FNOP FNSAVE FNSTCW
];

/// The constants of the numbers from 512 on, by their names.
pub(crate) const NAMED_4: [(u16, &str); 128] = named![
    FNSTENV FNSTSW FPATAN FPREM FPREM1 FPTAN FRNDINT FRSTOR FSCALE FSETPM287_NOP FSIN FSINCOS FSQRT
    FST FSTP FSTPNCE FSUB FSUBP FSUBR FSUBRP FTST FUCOM FUCOMI FUCOMIP FUCOMP FUCOMPP FXAM FXCH
    FXRSTOR FXSAVE FXTRACT FYL2X FYL2XP1 HRESET IDIV INC INCSSP INVLPG INVLPGA INVLPGB IRET IRETD
    IRETQ JECXZ JMPF LDMXCSR LFENCE LGDT LIDT LLDT LMSW LOADIWKEY LTR MFENCE MONITOR MONITORX
    MOVHLPS MOVLHPS MUL MWAIT MWAITX NEG NOT PAVGUSB PCONFIG PEXTRQ PF2ID PF2IW PFACC PFADD PFCMPEQ
    PFCMPGE PFCMPGT PFMAX PFMIN PFMUL PFNACC PFPNACC PFRCP PFRCPIT1 PFRCPIT2 PFRSQIT1 PFRSQRT PFSUB
    PFSUBR PI2FD PI2FW PINSRQ PMULHRW PREFETCH0 PREFETCH1 PREFETCH2 PREFETCHNTA PREFETCHW PSLLDQ
    PSMASH PSRLDQ PSWAPD PTWRITE PVALIDATE RCL RCR RDFSBASE RDGSBASE RDPID RDPKRU RDPRU RDRAND
    RDSEED RDTSCP RMPADJUST RMPUPDATE ROL ROR RSTORSSP SAL SAR SAVEPREVSSP SEAMCALL SEAMOPS SEAMRET
    SENDUIPI SETSSBSY SFENCE SGDT SHL SHR SIDT
];

/// The constants of the numbers from 640 on, by their names.
pub(crate) const NAMED_5: [(u16, &str); 51] = named![
    SKINIT SLDT SMSW STAC STGI STMXCSR STR STUI SWAPGS TDCALL TESTUI TLBSYNC TPAUSE UIRET UMONITOR
    UMWAIT VERR VERW VMCALL VMCLEAR VMFUNC VMLAUNCH VMLOAD VMMCALL VMPTRLD VMPTRST VMRESUME VMRUN
    VMSAVE VMXOFF VMXON WRFSBASE WRGSBASE WRPKRU XABORT XBEGIN XEND XGETBV XRESLDTRK XRSTOR XRSTORS
    XRSTORS64 XSAVE XSAVEC XSAVEC64 XSAVEOPT XSAVES XSAVES64 XSETBV XSUSLDTRK XTEST
];
