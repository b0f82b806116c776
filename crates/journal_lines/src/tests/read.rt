//! Lines that are read: how many E lines stand before the line, what it says, and after `<` the line,
//! with `'` for `"`. What an E line says is told by its one form.

/// E lines.
pub const ENTRIES: &str = "0 E 1 0 0 CLOSE = CLOSED<E 1 0 0 CLOSE = CLOSED
0 E 1 7 30 CLOSE = NO CLOSED<E 01 007 0030 CLOSE = NO CLOSED
0 E 1 999999999999999999 250000000000 CLOSE = DONE<E 1 999999999999999999 250000000000 CLOSE = DONE
9 E 10 0 0 DELIVER 9 = OK<E 10 0 0 DELIVER 9 = OK
9 E 10 0 0 DELIVER 0 = TOLD<E 0010 0 0 DELIVER 000 = TOLD
1 E 2 0 0 DELIVER 1 = POSTED<E 2 0 0 DELIVER 1 = POSTED
1 E 2 0 0 DELIVER 1 = DECLINED FUNDS<E 2 0 0 DELIVER 1 = DECLINED FUNDS
1 E 2 0 0 LOSE 1 = LOST<E 2 0 0 LOSE 1 = LOST
1 E 2 0 0 LATE T1 = NOTDUE<E 2 0 0 LATE T1 = NOTDUE
1 E 2 0 0 LATE T1 = STATUS PENDING<E 2 0 0 LATE T1 = STATUS PENDING
1 E 2 0 0 LATE T1 = STATUS SUCCESS<E 2 0 0 LATE T1 = STATUS SUCCESS
1 E 2 0 0 LATE T1 = STATUS DEEMED<E 2 0 0 LATE T1 = STATUS DEEMED
1 E 2 0 0 LATE T1 = STATUS FAILURE EXPIRED<E 2 0 0 LATE T1 = STATUS FAILURE EXPIRED
0 E 1 0 0 BAD alpha - JSON = NO FORMAT<E 1 0 0 BAD alpha - JSON = NO FORMAT
0 E 1 0 0 BAD alpha Payees.Payee[0].addr DIFFERS = NO FORMAT<E 1 0 0 BAD alpha Payees.Payee[0].addr DIFFERS = NO FORMAT
0 E 1 0 0 HEAR alpha {'ReqChkTxn':{'Head':{'msgId':'A3','orgId':'alpha','ts':'2024-01-01T05:30:00+05:30','ver':'1.0'},'Txn':{'id':'T1'}}} = STATUS FAILURE FUNDS<E 1 0 0 HEAR alpha {'ReqChkTxn':{'Head':{'msgId':'A3','orgId':'alpha','ts':'2024-01-01T05:30:00+05:30','ver':'1.0'},'Txn':{'id':'T1'}}} = STATUS FAILURE FUNDS
0 E 1 0 0 HEAR alpha {'ReqPay':{'Head':{'msgId':'A1','orgId':'alpha','ts':'2024-01-01T05:30:00+05:30','ver':'1.0'},'Payees':{'Payee':[{'addr':'bob@beta'}]},'Payer':{'Amount':{'curr':'INR','value':'30.00'},'addr':'ann@alpha'},'Txn':{'id':'T1','note':'a = b','type':'PAY'}}} = OK<E 1 0 0 HEAR alpha {'ReqPay':{'Head':{'msgId':'A1','orgId':'alpha','ts':'2024-01-01T05:30:00+05:30','ver':'1.0'},'Payees':{'Payee':[{'addr':'bob@beta'}]},'Payer':{'Amount':{'curr':'INR','value':'30.00'},'addr':'ann@alpha'},'Txn':{'id':'T1','note':'a = b','type':'PAY'}}} = OK";

/// All other lines.
pub const OTHERS: &str = "0 skipped<
0 skipped<# NOMSG 1 0
0 report<REPORT
9 report<REPORT
1 message<M 1 SWITCH beta REQAUTH T1 30.00
1 message<M 001 beta SWITCH REQAUTH T1 30
1 message<M 2 beta SWITCH RESPAUTH T1 30.00 YES
1 message<M 2 beta SWITCH RESPAUTH T1 30.00 NO
1 message<M 3 SWITCH AAAA DEBIT T1 30.00 AAAA/1
1 message<M 3 SWITCH AAAA CREDIT T1 30.00 AAAA/1
1 message<M 3 SWITCH AAAA REVERSAL T1 30.00 AAAA/1
1 message<M 4 AAAA SWITCH ANSWER T1 DEBIT POSTED
1 message<M 4 AAAA SWITCH ANSWER T1 REVERSAL DECLINED NOTHING
1 message<M 7 SWITCH alpha RESPPAY T1 SUCCESS
1 message<M 7 SWITCH alpha RESPPAY T1 FAILURE DEBITLATE
1 message<M 8 SWITCH beta CONFIRM T1 DEEMED
1 message<M 9 beta SWITCH CONFIRMED T1";
